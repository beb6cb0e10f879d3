// Duct set as a kind of limit.
ghost use Rattle.kinds.specs.Ducts.{ducts_model};
ghost use Rattle.kinds.specs.Passes.{Passes};
ghost use Rattle.kinds.specs.DuctLaws.{ducts_laws};

use super::{DuctState, DuctUse, Ducts};
use crate::kind::{Kind, state_along};

impl Ducts {
    // The ducts that a route passes, and whether it passes one twice: `state_along`, with this kind's theorem.
    pub fn passed(&self, uses: &[DuctUse]) -> DuctState
        ensures { Passes self.now uses.now result }
    {
        state_along(self, uses)
    }
}

impl Kind for Ducts {
    type State = DuctState;

    type Use = DuctUse;

    ghost model = { ducts_model };

    ghost laws = { ducts_laws };

    fn start(&self) -> DuctState {
        DuctState {
            set: 0,
            doubled: false,
        }
    }

    fn extend(&self, state: &DuctState, taken: &DuctUse) -> DuctState {
        if taken.duct >= 64 {
            return *state;
        }
        let mask = 1u64 << taken.duct;
        DuctState {
            set: state.set | mask,
            doubled: state.doubled | (state.set & mask != 0),
        }
    }

    fn within(&self, state: &DuctState) -> bool {
        !state.doubled
    }

    fn covers(&self, a: &DuctState, b: &DuctState) -> bool {
        (a.set & b.set == a.set) & (b.doubled | !a.doubled)
    }

    fn figure(&self, state: &DuctState) -> u32 {
        state.set.count_ones()
    }
}
