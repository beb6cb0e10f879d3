// Duct set: a route that passes no cable duct twice, what it is told and what it keeps.
pub mod rules;

// A booking asks nothing of the ducts.
#[derive(Clone, Copy, Debug, PartialEq, Eq)]
pub struct Ducts {}

// The duct that a link lies in, 0 to 63; a larger number means none, as every format tells it.
#[derive(Clone, Copy, Debug, PartialEq, Eq)]
pub struct DuctUse {
    pub duct: u16,
}

// The ducts passed, as the bits of a number, and whether one was passed twice: a flag, as the ducts stay passed.
#[derive(Clone, Copy, Debug, PartialEq, Eq)]
pub struct DuctState {
    pub set: u64,
    pub doubled: bool,
}
