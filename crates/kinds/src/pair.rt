// Pair: two kinds joined, what they are told and what they keep.
pub mod rules;

#[derive(Clone, Copy, Debug, PartialEq, Eq)]
pub struct Pair<A, B> {
    pub first: A,
    pub second: B,
}

#[derive(Clone, Copy, Debug, PartialEq, Eq)]
pub struct PairState<S, T> {
    pub first: S,
    pub second: T,
}

#[derive(Clone, Copy, Debug, PartialEq, Eq)]
pub struct PairUse<U, V> {
    pub first: U,
    pub second: V,
}
