// Picks the best label at the target.
ghost use Rattle.std.specs.Prelude.{◌≡◌, length};
ghost use Rattle.search.specs.Answers.{weighed, best, told, answer_of};

use crate::answer::{Best, Found, SearchFault};
use crate::label::Label;
use crate::query::Query;
use kinds::Kind;

// The best label so far, and label `n`: on a tie the earlier one stays.
fn weigh<K: Kind>(
    query: &Query<K>,
    so_far: Option<Best>,
    n: usize,
    label: &Label<K::State>,
) -> Option<Best>
    ensures { result ≡ weighed K.Kind.model query.now.kind query.now.target so_far n label.now }
{
    if label.node != query.target {
        return so_far;
    }
    let figure = query.kind.figure(&label.state);
    match so_far {
        Some(first) if (first.figure, first.hops) <= (figure, label.hops) => Some(first),
        _ => Some(Best {
            label: n,
            figure,
            hops: label.hops,
        }),
    }
}

#[tactic(auto, using(crate::proofs::Chosen::weighs_more, crate::proofs::Chosen::weighs_all))]
fn best_label<K: Kind>(query: &Query<K>, labels: &[Label<K::State>]) -> Option<Best>
    ensures { result ≡ best K.Kind.model query.now.kind query.now.target labels.now }
{
    let mut so_far = None;
    // A fold over `enumerate` was tried, and its proof did not close.
    for (n, label) in labels.iter().enumerate() {
        so_far = weigh(query, so_far, n, label);
    }
    so_far
}

// The answer of a search that made these labels.
pub fn pick<K: Kind>(query: &Query<K>, labels: &[Label<K::State>]) -> Result<Found, SearchFault>
    ensures { told result ≡ answer_of (best K.Kind.model query.now.kind query.now.target labels.now) (length labels.now) }
{
    let best = best_label(query, labels).ok_or(SearchFault::NoRoute)?;
    Ok(Found {
        label: best.label,
        figure: best.figure,
        hops: best.hops,
        count: labels.len(),
    })
}
