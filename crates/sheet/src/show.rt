// Audits as text.
use crate::audits::{Audit, BudgetAudit, GatedAudit, Margin, Stop};
use crate::gated::is_late;
use crate::link::Gate;
use kinds::{BudgetUse, Kind};
use std::fmt;

impl fmt::Display for Audit {
    fn fmt<W: fmt::Write>(&self, f: &mut fmt::Formatter<W>) -> fmt::Result {
        match self {
            Audit::Budget(audit) => write!(f, "{audit}"),
            Audit::Gated(audit) => write!(f, "{audit}"),
        }
    }
}

fn show_links<W: fmt::Write>(links: &[BudgetUse], f: &mut fmt::Formatter<W>) -> fmt::Result {
    writeln!(f, "link   nominal   extra")?;
    for (i, link) in links.iter().enumerate() {
        let number = i + 1;
        let nominal = link.nominal;
        let extra = link.extra;
        writeln!(f, "{number:<4}   {nominal:>7}   {extra:>5}")?;
    }
    Ok(())
}

fn show_totals<W: fmt::Write>(totals: &[u32], f: &mut fmt::Formatter<W>) -> fmt::Result {
    writeln!(f, "links at their worst        total")?;
    for (worst, total) in totals.iter().enumerate() {
        writeln!(f, "{worst:<20}   {total:>10}")?;
    }
    Ok(())
}

impl fmt::Display for BudgetAudit {
    fn fmt<W: fmt::Write>(&self, f: &mut fmt::Formatter<W>) -> fmt::Result {
        let allowance = usize::from(self.budget.allowance);
        let limit = self.budget.limit;
        show_links(&self.links, f)?;
        writeln!(f)?;
        show_totals(&self.state.worst[..=allowance], f)?;
        writeln!(f)?;
        match self.margin {
            Margin::Spare(spare) => write!(f, "within the limit {limit}: {spare} to spare"),
            Margin::Over(over) => write!(f, "over the limit {limit} by {over}"),
        }
    }
}

fn show_stop<W: fmt::Write>(
    number: usize,
    link: &Gate,
    stop: &Stop,
    f: &mut fmt::Formatter<W>,
) -> fmt::Result {
    let time = stop.first.time;
    let closes = link.first.closes;
    let duct = link.second.duct;
    write!(f, "{number:<4}   {time:>8}   {closes:>6}   ")?;
    if duct < 64 {
        write!(f, "{duct:>4}")?;
    } else {
        write!(f, "none")?;
    }
    if is_late(link, stop) {
        write!(f, "   missed")?;
    }
    writeln!(f)
}

fn show_stops<W: fmt::Write>(
    links: &[Gate],
    stops: &[Stop],
    f: &mut fmt::Formatter<W>,
) -> fmt::Result {
    writeln!(f, "link    arrives   closes   duct")?;
    for (i, (link, stop)) in links.iter().zip(stops.iter()).enumerate() {
        show_stop(i + 1, link, stop, f)?;
    }
    Ok(())
}

impl fmt::Display for GatedAudit {
    fn fmt<W: fmt::Write>(&self, f: &mut fmt::Formatter<W>) -> fmt::Result {
        let verdict = self.verdict;
        let ducts = verdict.state.second;
        let passed = self.kind.second.figure(&ducts);
        show_stops(&self.links, &self.stops, f)?;
        writeln!(f)?;
        writeln!(f, "ducts passed: {passed}")?;
        if verdict.within {
            return write!(f, "within: every gate is met, and no duct is passed twice");
        }
        write!(f, "not within")?;
        if let Some(i) = verdict.missed {
            let number = i.saturating_add(1);
            write!(f, "\nthe gate of link {number} is missed")?;
        }
        if ducts.doubled {
            write!(f, "\na duct is passed twice")?;
        }
        Ok(())
    }
}
