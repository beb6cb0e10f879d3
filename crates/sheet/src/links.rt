// The link lines of a sheet.
ghost use Rattle.std.specs.Prelude.{◌≡◌, ◌≤◌, map, IfOk, vec_len};
ghost use Rattle.reader.specs.Steps.{lines_left, line_number};
ghost use Rattle.sheet.specs.Sheet.{link_lines};
ghost use Rattle.sheet.specs.Told.{Tells};

use crate::fault::{Cause, Fault};
use crate::link::Link;
use reader::Reader;
use std::alloc::Global;

// The links of the lines that are left.
pub fn links<L: Link>(heap: Global, reader: &mut Reader<'_>) -> Result<Vec<L>, Fault>
    requires { line_number reader.old ≡ 1 }
    ensures told { Tells (λ v. map L.Link.figures v.items) result (link_lines L.Link.width 0 (lines_left reader.old)) }
    ensures some { IfOk result (λ v. 1 ≤ vec_len v) }
    ensures few { IfOk result (λ v. vec_len v ≤ 16) }
{
    let mut links = Vec::new(heap);
    while let Some(line) = reader.next_line() {
        if links.len() >= 16 {
            return Err(Fault::at(line, 1, Cause::TooManyLinks));
        }
        links.push(L::read(reader)?)?;
    }
    if links.is_empty() {
        return Err(Fault::at(2, 1, Cause::NoLinks));
    }
    Ok(links)
}
