// The audit of a budget.
ghost use Rattle.std.specs.Prelude.{◌≡◌, ◌≤◌, vec_len};
ghost use Rattle.sheet.specs.Audits.{MarginOf, BudgetFacts};

use crate::audits::{BudgetAudit, Margin};
use kinds::{Budget, BudgetUse, Kind};

fn margin_of(total: u32, limit: u32) -> Margin
    ensures { MarginOf total limit result }
{
    if total <= limit {
        Margin::Spare(limit - total)
    } else {
        Margin::Over(total - limit)
    }
}

pub fn budget_audit(budget: Budget, links: Vec<BudgetUse>) -> BudgetAudit
    requires { vec_len links ≤ 16 }
    ensures budget { result.budget ≡ budget }
    ensures links { result.links ≡ links }
    ensures facts { BudgetFacts budget links.items result.state result.margin }
{
    let state = budget.worst_case(&links);
    let margin = margin_of(budget.figure(&state), budget.limit);
    BudgetAudit {
        budget,
        links,
        state,
        margin,
    }
}
