// What a search answers.

// The label answered, with its figure and hops, and how many labels there are.
#[derive(Clone, Copy, Debug, PartialEq, Eq)]
pub struct Found {
    pub label: usize,
    pub figure: u32,
    pub hops: u16,
    pub count: usize,
}

#[derive(Clone, Copy, Debug, PartialEq, Eq)]
pub enum SearchFault {
    Full,
    NoRoute,
}

// The best label at the target so far.
#[derive(Clone, Copy)]
pub struct Best {
    pub label: usize,
    pub figure: u32,
    pub hops: u16,
}
