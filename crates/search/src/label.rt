// Links and labels.
ghost use Rattle.std.specs.Prelude.{◌<◌, ◌≤◌, length};

// A one-way link from its tail to its head, with what it takes of a limit.
#[derive(Clone, Copy)]
pub struct Link<U> {
    pub tail: u16,
    pub head: u16,
    pub capacity: u32,
    pub taken: U,
}

// A part route to `node`: how many links it has, its state, the label it came from and the link it came over.
#[derive(Clone, Copy)]
pub struct Label<S> {
    pub node: u16,
    pub hops: u16,
    pub state: S,
    pub from: usize,
    pub link: u16,
}

// The labels made so far, in the first places of a lent table. Not a `SliceVec`, as its model hides the reference, and no
// proof would know what the table holds when the loan ends.
#[derive(Drop)]
pub struct Labels<'a, S: Copy> {
    pub(crate) count: usize,
    pub(crate) places: &'a mut [Label<S>],
    ghost within: { count ≤ length places.now },
}

// A label that is taken, with its number. It has fewer links than a route may have, so one more can be counted.
#[derive(Drop)]
pub struct Taken<S: Copy> {
    pub number: usize,
    pub label: Label<S>,
    ghost short: { label.hops < 65535 },
}
