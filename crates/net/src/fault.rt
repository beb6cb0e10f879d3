// The numbers of the refusals.
ghost use Rattle.std.specs.Prelude.{◌≡◌};
ghost use Rattle.net.specs.Performed.{refusal_number};
ghost use Rattle.net.specs.Questions.{net_fault_number};

use crate::types::{NetFault, Refusal};

impl NetFault {
    pub fn number(&self) -> u16
        ensures { result ≡ net_fault_number self.now }
    {
        match self {
            NetFault::NodeCount => 1,
            NetFault::Tail => 3,
            NetFault::Head => 4,
            NetFault::LinkEnds => 5,
            NetFault::LinksFull => 6,
            NetFault::NoLink => 7,
            NetFault::StreamZero => 8,
            NetFault::StreamTaken => 9,
            NetFault::BookFull => 10,
            NetFault::Source => 11,
            NetFault::Target => 12,
            NetFault::StreamEnds => 13,
            NetFault::Rate => 14,
            NetFault::HopLimit => 15,
            NetFault::Search(fault) => fault.number(),
            NetFault::NoStream => 18,
            NetFault::ListShort => 19,
        }
    }
}

impl Refusal {
    pub fn number(&self) -> u16
        ensures { result ≡ refusal_number self.now }
    {
        match self {
            Refusal::Fault(fault) => fault.number(),
            Refusal::NotTaken => 22,
        }
    }
}
