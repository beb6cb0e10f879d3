// Budget as a kind of limit.
ghost use Rattle.std.specs.Prelude.{◌≡◌, ◌<◌, nat_le};
ghost use Rattle.std.specs.List.{list_all, zip};
ghost use Rattle.kinds.specs.Budget.{budget_model, fault_number, making, made_of, raised};
ghost use Rattle.kinds.specs.Choices.{WorstCase};
ghost use Rattle.kinds.specs.BudgetLaws.{budget_laws};

use super::{Budget, BudgetFault, BudgetState, BudgetUse};
use crate::kind::{Kind, state_along};
use std::array;

impl BudgetFault {
    pub fn number(self) -> u16
        ensures { result ≡ fault_number self }
    {
        match self {
            BudgetFault::AllowanceAboveEight => 2,
        }
    }
}

impl Budget {
    pub fn new(allowance: u16, limit: u32) -> Result<Budget, BudgetFault>
        ensures { made_of result ≡ making allowance limit }
    {
        if allowance > 8 {
            return Err(BudgetFault::AllowanceAboveEight);
        }
        Ok(Budget { allowance, limit })
    }

    // What a route comes to when at most as many links as the allowance are at their worst together. A method beside
    // `state_along`, as in each kind: the theorem of this kind stands on it.
    #[tactic(auto, using(crate::proofs::Choices::worst_case))]
    pub fn worst_case(&self, uses: &[BudgetUse]) -> BudgetState
        ensures { WorstCase self.now uses.now result }
    {
        state_along(self, uses)
    }
}

// No number of `a` is above the one at its place in `b`.
fn none_above(a: &[u32], b: &[u32]) -> bool
    ensures { result ≡ list_all (λ p. nat_le p.0 p.1) (zip a.now b.now) }
{
    a.iter().zip(b).all(|(x, y)| x <= y)
}

impl BudgetState {
    // What stands at place g over one link more.
    fn raised_at(&self, g: usize, taken: &BudgetUse) -> u32
        requires { g < 9 }
        ensures { result ≡ raised self.now taken.now g }
    {
        let nominal = u32::from(taken.nominal);
        let spared = self.worst[g].saturating_add(nominal);
        if g == 0 {
            return spared;
        }
        self.worst[g - 1]
            .saturating_add(nominal + u32::from(taken.extra))
            .max(spared)
    }
}

impl Kind for Budget {
    type State = BudgetState;

    type Use = BudgetUse;

    ghost model = { budget_model };

    ghost laws = { budget_laws };

    fn start(&self) -> BudgetState {
        BudgetState { worst: [0; 9] }
    }

    fn extend(&self, state: &BudgetState, taken: &BudgetUse) -> BudgetState {
        BudgetState {
            worst: array::from_fn(|g| {
                if g <= usize::from(self.allowance) {
                    state.raised_at(g, taken)
                } else {
                    0
                }
            }),
        }
    }

    fn within(&self, state: &BudgetState) -> bool {
        self.figure(state) <= self.limit
    }

    fn covers(&self, a: &BudgetState, b: &BudgetState) -> bool {
        let count = usize::from(self.allowance) + 1;
        none_above(&a.worst[..count], &b.worst[..count])
    }

    fn figure(&self, state: &BudgetState) -> u32 {
        state.worst[usize::from(self.allowance)]
    }
}
