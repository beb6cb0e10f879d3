// The numbers of a line, after its first word.
ghost use Rattle.std.specs.Prelude.{◌≡◌, ℕ, ◌<◌, ◌≤◌, length, IfOk, slice_index};
ghost use Rattle.reader.specs.Steps.{SameLine, fields_left};
ghost use Rattle.sheet.specs.Line.{numbers_of};

use crate::fault::{Cause, Fault};
use reader::{NumbersFault, Reader};

// The numbers after a line's first field: one for each of `most`, and at most that large. `N < 16` is
// about this function's own `N`.
#[tactic(auto, using(crate::proofs::Numbers::numbers_read))]
pub fn numbers<const N: usize>(
    reader: &mut Reader<'_>,
    line: usize,
    most: [u32; N],
) -> Result<[u32; N], Fault>
    requires { N < 16 }
    ensures told { result ≡ numbers_of line most.entry (fields_left reader.old) }
    ensures long { IfOk result (λ ns. length ns ≡ N) }
    ensures small { IfOk result (λ ns. (i : ℕ) → i < N → slice_index ns i ≤ slice_index most.entry i) }
    ensures same { SameLine reader.old reader.new }
{
    // A match, as in the closure of a `map_err` no proof knows that the place of a fault is below N.
    match reader.next_numbers(most) {
        Ok(found) => Ok(found),
        Err(NumbersFault::Missing(i)) => Err(Fault::at(line, i + 2, Cause::MissingField)),
        Err(NumbersFault::Surplus) => Err(Fault::at(line, N + 2, Cause::SurplusField)),
        Err(NumbersFault::Bad(i)) => {
            Err(Fault::at(line, i + 2, Cause::NotANumber { most: most[i] }))
        }
    }
}
