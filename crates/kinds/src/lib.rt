// Kinds of limit: what a kind is, the laws it keeps, and the four kinds of the planner.
#![tactic(auto)]

mod budget;
mod clock;
mod ducts;
mod kind;
mod pair;
mod rows;

pub use budget::{Budget, BudgetFault, BudgetState, BudgetUse};
pub use clock::{Clock, ClockState, ClockUse};
pub use ducts::{DuctState, DuctUse, Ducts};
pub use kind::{Kind, state_along};
pub use pair::{Pair, PairState, PairUse};
pub use rows::worked_examples;
