// What an audit of a route holds.
use crate::link::Gate;
use kinds::{Budget, BudgetState, BudgetUse, Clock, ClockState, DuctState, Ducts, Pair, PairState};

// The state of a route at the end of a link with a gate.
pub type Stop = PairState<ClockState, DuctState>;

#[derive(Drop)]
pub enum Audit {
    Budget(BudgetAudit),
    Gated(GatedAudit),
}

// How far a total stays below its limit, or passes it. No `Result`: neither is an error, and the names say which it is.
#[derive(Clone, Copy, Debug, PartialEq, Eq)]
pub enum Margin {
    Spare(u32),
    Over(u32),
}

#[derive(Drop)]
pub struct BudgetAudit {
    pub budget: Budget,
    pub links: Vec<BudgetUse>,
    pub state: BudgetState,
    pub margin: Margin,
}

#[derive(Drop)]
pub struct GatedAudit {
    pub kind: Pair<Clock, Ducts>,
    pub links: Vec<Gate>,
    // The state after each link. The links are moved in as they were read: pairs of both would be a second list of them.
    pub stops: Vec<Stop>,
    pub verdict: Verdict,
}

// What the whole route comes to.
#[derive(Clone, Copy)]
pub struct Verdict {
    pub state: Stop,
    // The first link whose gate had closed, counted from 0.
    pub missed: Option<usize>,
    // What the kind says of the state: a plain truth, on which no other value depends.
    pub within: bool,
}
