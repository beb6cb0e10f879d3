// What can be wrong with a file.
ghost use Rattle.std.specs.Prelude.{◌≡◌, Some, codes};
ghost use Rattle.orders.specs.declared.fault.AnswerFault.TheVariants.{NoMemory};

use std::alloc::{AllocError, AllocFailed};
use std::error::Error;
use std::fmt;

// Why a file gets no answers.
#[derive(Clone, Copy, Debug, PartialEq, Eq)]
pub enum AnswerFault {
    NoMemory,
}

impl fmt::Display for AnswerFault {
    ghost output = { λ _. Some (codes "no memory") };

    fn fmt<W: fmt::Write>(&self, f: &mut fmt::Formatter<W>) -> fmt::Result {
        match self {
            AnswerFault::NoMemory => write!(f, "no memory"),
        }
    }
}

impl Error for AnswerFault {}

// The conversions are by hand, as a derived one has no contract; this crate uses the first, and all are public.
impl From<AllocError> for AnswerFault {
    ghost from_gives = { λ _ r. r ≡ NoMemory };

    fn from(_error: AllocError) -> AnswerFault {
        AnswerFault::NoMemory
    }
}

impl<T: Drop> From<AllocFailed<T>> for AnswerFault {
    ghost from_gives = { λ _ r. r ≡ NoMemory };

    fn from(_refused: AllocFailed<T>) -> AnswerFault {
        AnswerFault::NoMemory
    }
}

// A text takes all that is written to it while there is memory.
impl From<fmt::Error> for AnswerFault {
    ghost from_gives = { λ _ r. r ≡ NoMemory };

    fn from(_error: fmt::Error) -> AnswerFault {
        AnswerFault::NoMemory
    }
}
