// The audit of a route with time gates and ducts.
ghost use Rattle.std.specs.Prelude.{◌≡◌, ◌≤◌, length, position, vec_len, MatchResult, nat_lt};
ghost use Rattle.std.specs.List.{zip};
ghost use Rattle.sheet.specs.Audits.{StopsOf, GatedFacts, late};
ghost use Rattle.sheet.specs.declared.fault.Fault.TheVariants.{NoMemory};

use crate::audits::{GatedAudit, Stop, Verdict};
use crate::fault::Fault;
use crate::link::Gate;
use kinds::{Clock, Ducts, Kind, Pair};
use std::alloc::Global;

// The state after each link.
fn stops_of(heap: Global, kind: &Pair<Clock, Ducts>, links: &[Gate]) -> Result<Vec<Stop>, Fault>
    ensures { MatchResult result (λ v. StopsOf kind.now links.now v.items) (λ f. f ≡ NoMemory) }
{
    let mut stops = Vec::new(heap);
    let mut state = kind.start();
    for link in links {
        state = kind.extend(&state, link);
        stops.push(state)?;
    }
    Ok(stops)
}

// Whether the link's end is reached after its gate has closed.
pub fn is_late(link: &Gate, stop: &Stop) -> bool
    ensures { result ≡ nat_lt link.now.first.closes stop.now.first.time }
{
    stop.first.time > u32::from(link.first.closes)
}

// The first link that is reached too late.
fn first_missed(links: &[Gate], stops: &[Stop]) -> Option<usize>
    ensures { result ≡ position late (zip links.now stops.now) }
{
    links
        .iter()
        .zip(stops)
        .position(|(link, stop)| is_late(link, stop))
}

fn verdict_of(kind: &Pair<Clock, Ducts>, links: &[Gate], stops: &[Stop]) -> Verdict
    requires few { length links.now ≤ 16 }
    requires stops { StopsOf kind.now links.now stops.now }
    ensures { GatedFacts kind.now links.now stops.now result }
{
    let state = kind.both_along(links);
    Verdict {
        state,
        missed: first_missed(links, stops),
        within: kind.within(&state),
    }
}

pub fn gated_audit(heap: Global, clock: Clock, links: Vec<Gate>) -> Result<GatedAudit, Fault>
    requires { vec_len links ≤ 16 }
    ensures { MatchResult result (λ a. (a.kind.first ≡ clock) × (a.links ≡ links) × GatedFacts a.kind links.items a.stops.items a.verdict) (λ f. f ≡ NoMemory) }
{
    let kind = Pair {
        first: clock,
        second: Ducts {},
    };
    let stops = stops_of(heap, &kind, &links)?;
    let verdict = verdict_of(&kind, &links, &stops);
    Ok(GatedAudit {
        kind,
        links,
        stops,
        verdict,
    })
}
