// Clock: a route with time gates, what it is told and what it keeps.
ghost use Rattle.std.specs.Prelude.{◌^◌, ◌<◌};

pub mod rules;

// A booking's start time, in microseconds.
#[derive(Clone, Copy, Debug, PartialEq, Eq)]
pub struct Clock {
    pub start: u16,
    ghost narrow: { start < 2 ^ 16 },
}

// A link with a gate: how long it takes, and when its gate opens and closes.
#[derive(Clone, Copy, Debug, PartialEq, Eq)]
pub struct ClockUse {
    pub travel: u16,
    pub opens: u16,
    pub closes: u16,
    ghost narrow: { (travel < 2 ^ 16) × (opens < 2 ^ 16) × (closes < 2 ^ 16) },
}

// The time of arrival, and whether a gate was reached after it had closed: a flag, as the time goes on past a shut gate.
#[derive(Clone, Copy, Debug, PartialEq, Eq)]
pub struct ClockState {
    pub time: u32,
    pub shut: bool,
}
