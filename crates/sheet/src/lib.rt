// Route sheets: what one route comes to at its worst, from the bytes of a sheet.
#![tactic(auto)]

ghost use Rattle.sheet.specs.Audits.{Audited};

mod audits;
mod budget;
mod fault;
mod gated;
mod head;
mod line;
mod link;
mod links;
mod rows;
mod show;
mod word;

pub use audits::{Audit, BudgetAudit, GatedAudit, Margin, Stop, Verdict};
use budget::budget_audit;
pub use fault::{Cause, Fault};
use gated::gated_audit;
use head::{Head, read_head};
pub use link::Gate;
use links::links;
use reader::Reader;
pub use rows::worked_sheets;
use std::alloc::Global;

// What the route of a sheet comes to, or the first thing that is wrong with the sheet.
pub fn audit(heap: Global, text: &[u8]) -> Result<Audit, Fault>
    ensures { Audited text.now result }
{
    let mut reader = Reader::new(text);
    reader
        .next_line()
        .ok_or(Fault::at(1, 1, Cause::EmptySheet))?;
    match read_head(&mut reader)? {
        Head::Budget(budget) => {
            let found = links(heap, &mut reader)?;
            Ok(Audit::Budget(budget_audit(budget, found)))
        }
        Head::Gated(clock) => {
            let found = links(heap, &mut reader)?;
            Ok(Audit::Gated(gated_audit(heap, clock, found)?))
        }
    }
}
