// Budget: a limit that holds whichever links are at their worst, what it is told and what it keeps.
ghost use Rattle.std.specs.Prelude.{◌^◌, ◌<◌, ◌≤◌};

pub mod rules;

// The limit holds while at most as many links as the allowance are at their worst together.
#[derive(Clone, Copy, Debug, PartialEq, Eq)]
pub struct Budget {
    pub allowance: u16,
    pub limit: u32,
    ghost few: { allowance ≤ 8 },
}

// What a link takes on a good day, and how much more at its worst.
#[derive(Clone, Copy, Debug, PartialEq, Eq)]
pub struct BudgetUse {
    pub nominal: u16,
    pub extra: u16,
    ghost narrow: { (nominal < 2 ^ 16) × (extra < 2 ^ 16) },
}

// What a route comes to with at most 0, 1, 2, .. links at their worst, up to the allowance; the places past it are 0.
// Nine places for each allowance, as a kind uses no heap.
#[derive(Clone, Copy, Debug, PartialEq, Eq)]
pub struct BudgetState {
    pub worst: [u32; 9],
}

#[derive(Clone, Copy, Debug, PartialEq, Eq)]
pub enum BudgetFault {
    AllowanceAboveEight,
}
