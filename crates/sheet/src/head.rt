// The first line of a sheet.
ghost use Rattle.reader.specs.Steps.{SameLine, fields_left};
ghost use Rattle.sheet.specs.Heads.{heading};
ghost use Rattle.sheet.specs.Sheet.{heading_of};
ghost use Rattle.sheet.specs.Told.{Tells};

use crate::fault::{Cause, Fault};
use crate::line::numbers;
use crate::word::Word;
use kinds::{Budget, Clock};
use reader::Reader;

pub enum Head {
    Budget(Budget),
    Gated(Clock),
}

// What the sheet's first line asks. Its casts lose nothing, which is proved.
pub fn read_head(reader: &mut Reader<'_>) -> Result<Head, Fault>
    ensures told { Tells heading result (heading_of (fields_left reader.old)) }
    ensures same { SameLine reader.old reader.new }
{
    match Word::read(reader.next_bytes()) {
        Some(Word::Budget) => {
            let [allowance, limit] = numbers(reader, 1, [65535, u32::MAX])?;
            Ok(Head::Budget(Budget::new(allowance as u16, limit)?))
        }
        Some(Word::Gated) => {
            let [start] = numbers(reader, 1, [65535])?;
            Ok(Head::Gated(Clock {
                start: start as u16,
            }))
        }
        _ => Err(Fault::at(1, 1, Cause::UnknownSheet)),
    }
}
