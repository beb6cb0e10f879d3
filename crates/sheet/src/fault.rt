// What is wrong with a sheet, and where.
ghost use Rattle.std.specs.Prelude.{◌≡◌};
ghost use Rattle.sheet.specs.declared.fault.Cause.TheVariants.{AllowanceAboveEight};
ghost use Rattle.sheet.specs.declared.fault.Fault.TheVariants.{At, NoMemory};

use kinds::BudgetFault;
use std::alloc::{AllocError, AllocFailed};
use thiserror::Error;

#[derive(Clone, Copy, Debug, PartialEq, Eq, Error)]
pub enum Cause {
    #[error("the sheet is empty")]
    EmptySheet,
    #[error("a sheet begins with the word budget or gated")]
    UnknownSheet,
    #[error("a field is missing")]
    MissingField,
    #[error("a field too many")]
    SurplusField,
    #[error("not a number up to {most}")]
    NotANumber { most: u32 },
    #[error("the allowance is above 8")]
    AllowanceAboveEight,
    #[error("a sheet has at most 16 links")]
    TooManyLinks,
    #[error("a line after the first begins with the word link")]
    NotALink,
    #[error("a sheet has at least one link")]
    NoLinks,
}

// Lines and fields are counted from 1.
#[derive(Clone, Copy, Debug, PartialEq, Eq, Error)]
pub enum Fault {
    #[error("line {line}, field {field}: {cause}")]
    At {
        line: usize,
        field: usize,
        cause: Cause,
    },
    #[error("there is not enough memory for the sheet")]
    NoMemory,
}

impl Fault {
    pub(crate) fn at(line: usize, field: usize, cause: Cause) -> Fault
        ensures { result ≡ At line field cause }
    {
        Fault::At { line, field, cause }
    }
}

// The conversions are by hand: clauses name the fault that a `?` makes, and a derived one has no contract.
// The allowance stands in the second field of the first line.
impl From<BudgetFault> for Fault {
    ghost from_gives = { λ _ r. r ≡ At 1 2 AllowanceAboveEight };

    fn from(fault: BudgetFault) -> Fault {
        match fault {
            BudgetFault::AllowanceAboveEight => Fault::at(1, 2, Cause::AllowanceAboveEight),
        }
    }
}

impl From<AllocError> for Fault {
    ghost from_gives = { λ _ r. r ≡ NoMemory };

    fn from(_error: AllocError) -> Fault {
        Fault::NoMemory
    }
}

impl<T: Drop> From<AllocFailed<T>> for Fault {
    ghost from_gives = { λ _ r. r ≡ NoMemory };

    fn from(_refused: AllocFailed<T>) -> Fault {
        Fault::NoMemory
    }
}
