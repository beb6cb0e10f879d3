// What can be wrong with a line.
ghost use Rattle.std.specs.Prelude.{◌≡◌};
ghost use Rattle.forms.specs.Faults.{blame_of};
ghost use Rattle.forms.specs.declared.fault.LineFault.TheVariants.{Budget, Net};

use kinds::BudgetFault;
use net::NetFault;

// Why a line is refused before its call is made.
#[derive(Clone, Copy, Debug, PartialEq, Eq)]
pub enum LineFault {
    UnknownOrder,
    // Not in the net's present state.
    NotAllowed,
    FieldCount,
    // The position of the field; the order is field 1.
    BadField(usize),
    Budget(BudgetFault),
    Net(NetFault),
}

impl LineFault {
    pub fn number(&self) -> u16
        ensures { result ≡ (blame_of self.now).0 }
    {
        match self {
            LineFault::UnknownOrder => 21,
            LineFault::NotAllowed => 22,
            LineFault::FieldCount => 23,
            LineFault::BadField(_) => 24,
            LineFault::Budget(fault) => fault.number(),
            LineFault::Net(fault) => fault.number(),
        }
    }

    // The position of the field to blame, or the 0 that an answer line has in its place.
    pub fn field(&self) -> usize
        ensures { result ≡ (blame_of self.now).1 }
    {
        match self {
            LineFault::BadField(field) => *field,
            _ => 0,
        }
    }
}

// The conversions are by hand: clauses name the fault that a `?` makes.
impl From<BudgetFault> for LineFault {
    ghost from_gives = { λ f r. r ≡ Budget f };

    fn from(fault: BudgetFault) -> LineFault {
        LineFault::Budget(fault)
    }
}

impl From<NetFault> for LineFault {
    ghost from_gives = { λ f r. r ≡ Net f };

    fn from(fault: NetFault) -> LineFault {
        LineFault::Net(fault)
    }
}
