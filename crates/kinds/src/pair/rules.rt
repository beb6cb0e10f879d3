// Any two kinds joined, as a kind of limit.
ghost use Rattle.kinds.specs.Pair.{pair_model, Parts};
ghost use Rattle.kinds.specs.PairLaws.{pair_laws};

use super::{Pair, PairState, PairUse};
use crate::kind::{Kind, state_along};

impl<A: Kind, B: Kind> Pair<A, B> {
    // The state of a route for both kinds at once: `state_along`, with this kind's theorem.
    #[tactic(auto, using(crate::proofs::Parts::parts))]
    pub fn both_along(&self, uses: &[PairUse<A::Use, B::Use>]) -> PairState<A::State, B::State>
        ensures { Parts A.Kind.model B.Kind.model self.now uses.now result }
    {
        state_along(self, uses)
    }
}

impl<A: Kind, B: Kind> Kind for Pair<A, B> {
    type State = PairState<A::State, B::State>;

    type Use = PairUse<A::Use, B::Use>;

    ghost model = { pair_model A.Kind.model B.Kind.model };

    ghost laws = { pair_laws A.Kind.laws B.Kind.laws };

    fn start(&self) -> PairState<A::State, B::State> {
        PairState {
            first: self.first.start(),
            second: self.second.start(),
        }
    }

    fn extend(
        &self,
        state: &PairState<A::State, B::State>,
        taken: &PairUse<A::Use, B::Use>,
    ) -> PairState<A::State, B::State> {
        PairState {
            first: self.first.extend(&state.first, &taken.first),
            second: self.second.extend(&state.second, &taken.second),
        }
    }

    fn within(&self, state: &PairState<A::State, B::State>) -> bool {
        self.first.within(&state.first) & self.second.within(&state.second)
    }

    fn covers(&self, a: &PairState<A::State, B::State>, b: &PairState<A::State, B::State>) -> bool {
        self.first.covers(&a.first, &b.first) & self.second.covers(&a.second, &b.second)
    }

    fn figure(&self, state: &PairState<A::State, B::State>) -> u32 {
        self.first.figure(&state.first)
    }
}
