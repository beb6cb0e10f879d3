// A link's line, and the two kinds of link that it can tell.
ghost use Rattle.std.specs.Prelude.{◌≡◌, ℕ, ◌<◌, ◌≤◌, List, IfOk, slice_index};
ghost use Rattle.reader.specs.Steps.{SameLine, fields_left, line_number};
ghost use Rattle.sheet.specs.Figures.{budget_figures, gate_figures};
ghost use Rattle.sheet.specs.Sheet.{link_line};
ghost use Rattle.sheet.specs.Told.{Tells};

use crate::fault::{Cause, Fault};
use crate::line::numbers;
use crate::word::Word;
use kinds::{BudgetUse, ClockUse, DuctUse, PairUse};
use reader::Reader;

// A link with a gate, in a duct.
pub type Gate = PairUse<ClockUse, DuctUse>;

// What a link's line can tell.
pub trait Link: Copy {
    ghost width: { ℕ };

    ghost figures: { Self → List ℕ };

    fn read(reader: &mut Reader<'_>) -> Result<Self, Fault>
        ensures told { Tells figures result (link_line width (line_number reader.old) (fields_left reader.old)) }
        ensures same { SameLine reader.old reader.new };
}

// The numbers of a link's line, each of at most 16 bits. `N < 16` is about this function's own `N`.
fn link_numbers<const N: usize>(reader: &mut Reader<'_>) -> Result<[u32; N], Fault>
    requires { N < 16 }
    ensures told { result ≡ link_line N (line_number reader.old) (fields_left reader.old) }
    ensures small { IfOk result (λ ns. (i : ℕ) → i < N → slice_index ns i ≤ 65535) }
    ensures same { SameLine reader.old reader.new }
{
    let line = reader.line_number();
    let Some(Word::Link) = Word::read(reader.next_bytes()) else {
        return Err(Fault::at(line, 1, Cause::NotALink));
    };
    numbers(reader, line, [65535; N])
}

// The casts below lose nothing, which is proved; a `try_from` would add a fault that no line can have.
impl Link for BudgetUse {
    ghost width = { 2 };

    ghost figures = { budget_figures };

    fn read(reader: &mut Reader<'_>) -> Result<BudgetUse, Fault> {
        let [nominal, extra] = link_numbers::<2>(reader)?;
        Ok(BudgetUse {
            nominal: nominal as u16,
            extra: extra as u16,
        })
    }
}

impl Link for PairUse<ClockUse, DuctUse> {
    ghost width = { 4 };

    ghost figures = { gate_figures };

    fn read(reader: &mut Reader<'_>) -> Result<Gate, Fault> {
        let [travel, opens, closes, duct] = link_numbers::<4>(reader)?;
        Ok(PairUse {
            first: ClockUse {
                travel: travel as u16,
                opens: opens as u16,
                closes: closes as u16,
            },
            second: DuctUse { duct: duct as u16 },
        })
    }
}
