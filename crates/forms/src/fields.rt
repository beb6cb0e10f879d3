// The numbers of a line after its order.
ghost use Rattle.std.specs.Prelude.{◌≡◌, ℕ, ◌<◌, ◌≤◌, [], length, IfOk, slice_index};
ghost use Rattle.reader.specs.Steps.{SameLine, fields_left};
ghost use Rattle.forms.specs.Faults.{read_as};
ghost use Rattle.forms.specs.Forms.{numbers as numbers_read, one_number, no_number};

use crate::fault::LineFault;
use reader::{NumbersFault, Reader};

// The largest numbers of 16 and of 32 bits.
pub const TOP16: u32 = 65_535;

pub const TOP32: u32 = u32::MAX;

// The numbers after the order: one for each of `most`, and at most that large. Their fault has no `From`, which could not
// know that a place is small enough to be counted on from. `N < 16` is about this function's own `N`.
pub fn numbers<const N: usize>(
    reader: &mut Reader<'_>,
    most: [u32; N],
) -> Result<[u32; N], LineFault>
    requires { N < 16 }
    ensures told { read_as result ≡ numbers_read most.entry (fields_left reader.old) }
    ensures long { IfOk result (λ ns. length ns ≡ N) }
    ensures small { IfOk result (λ ns. (i : ℕ) → i < N → slice_index ns i ≤ slice_index most.entry i) }
    ensures line { SameLine reader.old reader.new }
{
    reader.next_numbers(most).map_err(|fault| match fault {
        NumbersFault::Bad(place) => LineFault::BadField(place + 2),
        NumbersFault::Missing(_) | NumbersFault::Surplus => LineFault::FieldCount,
    })
}

// One number of 16 bits. The cast loses nothing, which is proved; a `try_from` would add a fault that no line can have.
pub fn number(reader: &mut Reader<'_>) -> Result<u16, LineFault>
    ensures told { read_as result ≡ one_number (fields_left reader.old) }
    ensures line { SameLine reader.old reader.new }
{
    let [number] = numbers(reader, [TOP16])?;
    Ok(number as u16)
}

pub fn nothing(reader: &mut Reader<'_>) -> Result<(), LineFault>
    ensures told { read_as result ≡ no_number (fields_left reader.old) }
    ensures line { SameLine reader.old reader.new }
{
    numbers::<0>(reader, [])?;
    Ok(())
}
