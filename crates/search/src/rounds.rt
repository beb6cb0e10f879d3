// Makes the labels of a search, round by round.
ghost use Rattle.std.specs.Prelude.{◌≡◌, ◌++◌, not, ◌&&◌, if◌then◌else◌, Some, None};
ghost use Rattle.std.specs.List.{list_any};
ghost use Rattle.slice_vec.specs.Tables.{stored};
ghost use Rattle.search.specs.Labels.{counted, held, Stores};
ghost use Rattle.search.specs.Rule.{is_open, candidate, beats, beaten, offered, first, tried, tries, turn, made};

use crate::answer::SearchFault;
use crate::label::{Label, Labels, Link, Taken};
use crate::query::Query;
use kinds::Kind;

// The number of a link that is open.
fn open_number(flags: &[bool], i: usize) -> Option<u16>
    ensures { result ≡ (if is_open flags.now i then Some i else None) }
{
    if *flags.get(i)? {
        u16::try_from(i).ok()
    } else {
        None
    }
}

fn does_beat<K: Kind>(kind: &K, other: &Label<K::State>, label: &Label<K::State>) -> bool
    ensures { result ≡ beats K.Kind.model kind.now other.now label.now }
{
    other.node == label.node && other.hops <= label.hops && kind.covers(&other.state, &label.state)
}

fn is_beaten<K: Kind>(kind: &K, label: &Label<K::State>, labels: &[Label<K::State>]) -> bool
    ensures { result ≡ list_any (λ other. beats K.Kind.model kind.now other label.now) labels.now }
{
    labels.iter().any(|other| does_beat(kind, other, label))
}

// Whether a label is not within, or is beaten by one of the labels.
fn is_dropped<K: Kind>(kind: &K, label: &Label<K::State>, labels: &[Label<K::State>]) -> bool
    ensures { result ≡ not (K.Kind.model.within kind.now label.now.state && not (beaten K.Kind.model kind.now label.now labels.now)) }
{
    !kind.within(&label.state) || is_beaten(kind, label, labels)
}

// Stores a label that is not dropped.
fn offer<K: Kind>(
    kind: &K,
    label: Label<K::State>,
    labels: &mut Labels<K::State>,
) -> Result<(), SearchFault>
    ensures { Stores (offered K.Kind.model kind.now label (held labels.old)) labels.old result labels.new }
{
    if is_dropped(kind, &label, labels.as_slice()) {
        return Ok(());
    }
    labels.push(label)
}

// What a label that is taken gives over a link.
fn step_over<K: Kind>(
    kind: &K,
    taken: &Taken<K::State>,
    number: u16,
    link: &Link<K::Use>,
) -> Label<K::State>
    ensures { result ≡ candidate K.Kind.model kind.now taken.now.number taken.now.label number link.now }
{
    Label {
        node: link.head,
        hops: taken.label.hops + 1,
        state: kind.extend(&taken.label.state, &link.taken),
        from: taken.number,
        link: number,
    }
}

fn try_link<K: Kind>(
    query: &Query<K>,
    taken: &Taken<K::State>,
    i: usize,
    link: &Link<K::Use>,
    labels: &mut Labels<K::State>,
) -> Result<(), SearchFault>
    ensures { Stores (tried K.Kind.model query.now.kind query.now.flags taken.now.number taken.now.label i link.now (held labels.old)) labels.old result labels.new }
{
    let Some(number) = open_number(query.flags, i) else {
        return Ok(());
    };
    if link.tail != taken.label.node {
        return Ok(());
    }
    offer(
        query.kind,
        step_over(query.kind, taken, number, link),
        labels,
    )
}

// Tries the links in order of number for a label that is taken.
fn try_links<K: Kind>(
    query: &Query<K>,
    taken: &Taken<K::State>,
    labels: &mut Labels<K::State>,
) -> Result<(), SearchFault>
    ensures { Stores (tries K.Kind.model query.now.kind query.now.flags taken.now.number taken.now.label 0 query.now.links (held labels.old)) labels.old result labels.new }
{
    for (i, link) in query.links.iter().enumerate() {
        try_link(query, taken, i, link, labels)?;
    }
    Ok(())
}

// Takes label `number`, if there is one; one at the target, or with as many hops as the hop limit, is passed over.
fn take_label<K: Kind>(
    query: &Query<K>,
    number: usize,
    labels: &mut Labels<K::State>,
) -> Result<(), SearchFault>
    ensures { Stores (turn K.Kind.model query.now number (held labels.old)) labels.old result labels.new }
{
    let Some(&label) = labels.as_slice().get(number) else {
        return Ok(());
    };
    if label.node == query.target || label.hops >= query.hop_limit {
        return Ok(());
    }
    try_links(query, &Taken { number, label }, labels)
}

// Makes the label of the source, if the start state is within.
fn make_first<K: Kind>(query: &Query<K>, labels: &mut Labels<K::State>) -> Result<(), SearchFault>
    ensures { Stores (held labels.old ++ first K.Kind.model query.now) labels.old result labels.new }
{
    let state = query.kind.start();
    if !query.kind.within(&state) {
        return Ok(());
    }
    labels.push(Label {
        node: query.source,
        hops: 0,
        state,
        from: 0,
        link: 0,
    })
}

// Makes all labels of the rule, in the table from its start, and counts them.
pub fn make_labels<K: Kind>(
    query: &Query<K>,
    places: &mut [Label<K::State>],
) -> Result<usize, SearchFault>
    ensures count { result ≡ counted (made K.Kind.model query.now) places.old }
    ensures left { places.new ≡ stored (made K.Kind.model query.now) places.old }
{
    let mut labels = Labels::new(places);
    make_first(query, &mut labels)?;
    // By number, as the list grows while its labels are taken.
    for number in 0..labels.places.len() {
        take_label(query, number, &mut labels)?;
    }
    Ok(labels.count)
}
