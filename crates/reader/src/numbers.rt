// The numbers of a line: as many as are asked for, each within its range.
ghost use Rattle.std.specs.Prelude.{◌≡◌, ℕ, ◌<◌, ◌≤◌, length, IfOk, slice_index};
ghost use Rattle.reader.specs.Numbers.{ranged, numbers_of, Placed};
ghost use Rattle.reader.specs.Reading.{meaning};
ghost use Rattle.reader.specs.Steps.{SameLine, fields_left};

use crate::{Field, Reader};

// Why the fields left of a line are not the numbers asked for. A number's place is counted from 0.
#[derive(Clone, Copy, Debug, PartialEq, Eq)]
pub enum NumbersFault {
    Missing(usize),
    Surplus,
    Bad(usize),
}

impl Field<'_> {
    // The value of a number of at most `most`.
    fn number_up_to(self, most: u32) -> Option<u32>
        ensures { result ≡ ranged most (meaning self.entry) }
    {
        match self {
            Field::Number { value, .. } if value <= most => Some(value),
            _ => None,
        }
    }
}

impl<'a> Reader<'a> {
    // The fields left of the current line: a number for each of `most`, and at most that large. The clauses `long` and `small`
    // stand in the functions over this one too, since they are about their own `N`.
    pub fn next_numbers<const N: usize>(&mut self, most: [u32; N]) -> Result<[u32; N], NumbersFault>
        ensures told { result ≡ numbers_of most.entry (fields_left self.old) }
        ensures long { IfOk result (λ ns. length ns ≡ N) }
        ensures small { IfOk result (λ ns. (i : ℕ) → i < N → slice_index ns i ≤ slice_index most.entry i) }
        ensures placed { Placed N result }
        ensures line { SameLine self.old self.new }
    {
        let mut found = [0; N];
        let mut bad = None;
        for (i, limit) in most.iter().enumerate() {
            let field = self.next_field().ok_or(NumbersFault::Missing(i))?;
            match field.number_up_to(*limit) {
                Some(value) => found[i] = value,
                None => bad = bad.or(Some(i)),
            }
        }
        if self.next_field().is_some() {
            return Err(NumbersFault::Surplus);
        }
        // A match, as a fault and the values are two ways to end, and neither is made from the other.
        match bad {
            Some(i) => Err(NumbersFault::Bad(i)),
            None => Ok(found),
        }
    }
}
