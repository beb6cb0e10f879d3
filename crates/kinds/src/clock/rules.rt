// Clock as a kind of limit.
ghost use Rattle.kinds.specs.Arrivals.{Arrives};
ghost use Rattle.kinds.specs.Clock.{clock_model};
ghost use Rattle.kinds.specs.ClockLaws.{clock_laws};

use super::{Clock, ClockState, ClockUse};
use crate::kind::{Kind, state_along};

impl Clock {
    // When a route arrives, and whether a gate on it was reached too late: `state_along`, with this kind's theorem.
    #[tactic(auto, using(crate::proofs::Arrivals::arrives))]
    pub fn arrival(&self, uses: &[ClockUse]) -> ClockState
        ensures { Arrives self.now uses.now result }
    {
        state_along(self, uses)
    }
}

impl Kind for Clock {
    type State = ClockState;

    type Use = ClockUse;

    ghost model = { clock_model };

    ghost laws = { clock_laws };

    fn start(&self) -> ClockState {
        ClockState {
            time: u32::from(self.start),
            shut: false,
        }
    }

    fn extend(&self, state: &ClockState, taken: &ClockUse) -> ClockState {
        let time = state
            .time
            .saturating_add(u32::from(taken.travel))
            .max(u32::from(taken.opens));
        ClockState {
            time,
            shut: state.shut | (time > u32::from(taken.closes)),
        }
    }

    fn within(&self, state: &ClockState) -> bool {
        !state.shut
    }

    fn covers(&self, a: &ClockState, b: &ClockState) -> bool {
        (a.time <= b.time) & (b.shut | !a.shut)
    }

    fn figure(&self, state: &ClockState) -> u32 {
        state.time
    }
}
