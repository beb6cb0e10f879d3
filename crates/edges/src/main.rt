// Searches that show each kind of answer, over small nets.
#![tactic(auto)]

mod bookings;
mod examples;

ghost use Rattle.std.specs.Prelude.{◌≡◌, cond, true, length, codes};
ghost use Rattle.search.specs.Answers.{answer};
ghost use Rattle.edges.specs.Tells.{Tells, refused_with, number_expected};

use bookings::show_bookings;
use examples::{examples, joined};
use kinds::{Budget, BudgetFault, BudgetUse, Clock, ClockUse, DuctUse, Ducts, Kind, Pair, PairUse};
use search::{Label, Link, Query, SearchFault, route_to, search};
use std::{fmt, io};

type DelayUse = PairUse<BudgetUse, BudgetUse>;

type GatedUse = PairUse<BudgetUse, PairUse<ClockUse, DuctUse>>;

const MOST_PLACES: usize = 8;

const MOST_HOPS: usize = 4;

// A route's links lie at the start of its places: a `Vec` would not be copied.
#[derive(Clone, Copy, PartialEq, Eq)]
struct Route {
    figure: u32,
    hops: u16,
    labels: usize,
    links: [u16; MOST_HOPS],
}

impl fmt::Display for Route {
    fn fmt<W: fmt::Write>(&self, f: &mut fmt::Formatter<W>) -> fmt::Result {
        let Route {
            figure,
            hops,
            labels,
            links,
        } = self;
        write!(f, "figure {figure}, hops {hops}, labels {labels}, links [")?;
        for link in links.iter().take(usize::from(*hops)) {
            write!(f, " {link}")?;
        }
        write!(f, " ]")
    }
}

// An answer in words.
#[derive(Clone, Copy)]
struct Words(Result<Route, SearchFault>);

impl fmt::Display for Words {
    fn fmt<W: fmt::Write>(&self, f: &mut fmt::Formatter<W>) -> fmt::Result {
        match self.0 {
            Ok(route) => write!(f, "{route}"),
            Err(fault) => {
                let number = fault.number();
                write!(f, "refused with {number}")
            }
        }
    }
}

// The refusals that a search should give, each with its number.
const FULL: (SearchFault, u16) = (SearchFault::Full, 16);

const NO_ROUTE: (SearchFault, u16) = (SearchFault::NoRoute, 17);

// A search from node 0 over a table of so many places, and what it should answer.
#[derive(Clone, Copy)]
struct Case {
    target: u16,
    hop_limit: u16,
    places: usize,
    expected: Result<Route, (SearchFault, u16)>,
}

fn answer_to<K: Kind>(
    query: &Query<K>,
    labels: &mut [Label<K::State>],
) -> Result<Route, SearchFault>
    ensures { Tells result (answer K.Kind.model query.now (length labels.old)) }
{
    let found = search(query, labels)?;
    let mut links = [0; MOST_HOPS];
    let _ = route_to(labels, found.label, &mut links);
    Ok(Route {
        figure: found.figure,
        hops: found.hops,
        labels: found.count,
        links,
    })
}

// Said in the other program over cases too: two programs need no crate between them for three lines.
fn verdict(is_expected: bool) -> &'static str
    ensures { result.now ≡ cond is_expected (codes "ok") (codes "WRONG") }
{
    if is_expected { "ok" } else { "WRONG" }
}

// Whether a search answered as its case expects, a refusal with its number.
fn is_as_expected(answer: &Result<Route, SearchFault>, case: &Case) -> bool
    ensures { result ≡ true → refused_with answer.now ≡ number_expected case.now.expected }
{
    answer.map_err(|fault| (fault, fault.number())) == case.expected
}

fn show<K: Kind>(
    rt: &HostRuntime,
    name: &str,
    kind: &K,
    links: &[Link<K::Use>],
    flags: &[bool],
    cases: &[Case],
    table: &mut [Label<K::State>],
) -> io::Result<()> {
    for case in cases {
        let target = case.target;
        let hop_limit = case.hop_limit;
        let places = case.places.min(table.len());
        let query = Query {
            kind,
            links,
            flags,
            source: 0,
            target,
            hop_limit,
        };
        let answer = answer_to(&query, &mut table[..places]);
        let verdict = verdict(is_as_expected(&answer, case));
        let answer = Words(answer);
        println!(rt;
            "{name}, from 0 to {target}, hop limit {hop_limit}, label places {places}: {answer}: {verdict}"
        )?;
    }
    Ok(())
}

// A link with a price and a delay.
fn delayed(tail: u16, head: u16, price: u16, delay: u16, extra: u16) -> Link<DelayUse>
    ensures ends { (result.tail ≡ tail) × ((result.head ≡ head) × (result.capacity ≡ 100)) }
    ensures takes { (result.taken.first.nominal ≡ price) × ((result.taken.second.nominal ≡ delay) × (result.taken.second.extra ≡ extra)) }
{
    Link {
        tail,
        head,
        capacity: 100,
        taken: PairUse {
            first: BudgetUse {
                nominal: price,
                extra: 0,
            },
            second: BudgetUse {
                nominal: delay,
                extra,
            },
        },
    }
}

// A link with a price that takes 10 microseconds, with a gate that is open from the start, and a duct.
fn gated(tail: u16, head: u16, price: u16, closes: u16, duct: u16) -> Link<GatedUse>
    ensures ends { (result.tail ≡ tail) × (result.head ≡ head) }
    ensures takes { (result.taken.first.nominal ≡ price) × ((result.taken.second.first.closes ≡ closes) × (result.taken.second.second.duct ≡ duct)) }
{
    Link {
        tail,
        head,
        capacity: 100,
        taken: PairUse {
            first: BudgetUse {
                nominal: price,
                extra: 0,
            },
            second: PairUse {
                first: ClockUse {
                    travel: 10,
                    opens: 0,
                    closes,
                },
                second: DuctUse { duct },
            },
        },
    }
}

fn unused<S: Copy>(state: S) -> Label<S>
    ensures { (result.state ≡ state) × (result.hops ≡ 0) }
{
    Label {
        node: 0,
        hops: 0,
        state,
        from: 0,
        link: 0,
    }
}

fn any_price() -> Budget
    ensures { (result.allowance ≡ 0) × (result.limit ≡ 4294967295) }
{
    Budget {
        allowance: 0,
        limit: u32::MAX,
    }
}

fn show_delayed(rt: &HostRuntime) -> io::Result<()> {
    let kind = joined(
        any_price(),
        Budget {
            allowance: 1,
            limit: 11,
        },
    );
    let mut table = [unused(kind.start()); MOST_PLACES];
    let links = [
        delayed(0, 1, 2, 3, 5),
        delayed(1, 3, 2, 3, 4),
        delayed(0, 2, 3, 4, 1),
        delayed(2, 3, 3, 4, 1),
    ];
    let all_open = [
        Case {
            target: 3,
            hop_limit: 4,
            places: 4,
            expected: Err(FULL),
        },
        Case {
            target: 3,
            hop_limit: 4,
            places: 5,
            expected: Ok(Route {
                figure: 4,
                hops: 2,
                labels: 5,
                links: [0, 1, 0, 0],
            }),
        },
        Case {
            target: 3,
            hop_limit: 1,
            places: 5,
            expected: Err(NO_ROUTE),
        },
        Case {
            target: 0,
            hop_limit: 4,
            places: 1,
            expected: Ok(Route {
                figure: 0,
                hops: 0,
                labels: 1,
                links: [0; MOST_HOPS],
            }),
        },
    ];
    show(
        rt,
        "cheapest with delay within 11",
        &kind,
        &links,
        &[true; 4],
        &all_open,
        &mut table,
    )?;
    let first_shut = [Case {
        target: 3,
        hop_limit: 4,
        places: 5,
        expected: Ok(Route {
            figure: 6,
            hops: 2,
            labels: 3,
            links: [2, 3, 0, 0],
        }),
    }];
    show(
        rt,
        "the same with link 0 not open",
        &kind,
        &links,
        &[false, true, true, true],
        &first_shut,
        &mut table,
    )?;
    let no_links = [
        Case {
            target: 3,
            hop_limit: 4,
            places: 1,
            expected: Err(NO_ROUTE),
        },
        Case {
            target: 3,
            hop_limit: 4,
            places: 0,
            expected: Err(FULL),
        },
    ];
    show(
        rt,
        "the same with no links",
        &kind,
        &[],
        &[],
        &no_links,
        &mut table,
    )
}

fn show_gated(rt: &HostRuntime) -> io::Result<()> {
    let kind = Pair {
        first: any_price(),
        second: Pair {
            first: Clock { start: 0 },
            second: Ducts {},
        },
    };
    let mut table = [unused(kind.start()); MOST_PLACES];
    let dearer = Case {
        target: 3,
        hop_limit: 4,
        places: MOST_PLACES,
        expected: Ok(Route {
            figure: 4,
            hops: 2,
            labels: 4,
            links: [2, 3, 0, 0],
        }),
    };
    let none = Case {
        target: 3,
        hop_limit: 4,
        places: MOST_PLACES,
        expected: Err(NO_ROUTE),
    };
    let shutting = [
        gated(0, 1, 1, 99, 64),
        gated(1, 3, 1, 19, 64),
        gated(0, 2, 2, 99, 64),
        gated(2, 3, 2, 20, 64),
    ];
    show(
        rt,
        "the cheaper route has a gate that shuts",
        &kind,
        &shutting,
        &[true; 4],
        &[dearer],
        &mut table,
    )?;
    let doubling = [
        gated(0, 1, 1, 99, 7),
        gated(1, 3, 1, 99, 7),
        gated(0, 2, 2, 99, 7),
        gated(2, 3, 2, 99, 8),
    ];
    show(
        rt,
        "the cheaper route passes a duct twice",
        &kind,
        &doubling,
        &[true; 4],
        &[dearer],
        &mut table,
    )?;
    let outside = [
        gated(0, 1, 1, 99, 64),
        gated(1, 3, 1, 19, 64),
        gated(0, 2, 2, 99, 7),
        gated(2, 3, 2, 99, 7),
    ];
    show(
        rt,
        "every route is outside",
        &kind,
        &outside,
        &[true; 4],
        &[none],
        &mut table,
    )
}

fn show_allowance(rt: &HostRuntime) -> io::Result<()> {
    match Budget::new(9, 11) {
        Ok(_) => println!(rt; "a budget with allowance 9: made: WRONG"),
        Err(fault) => {
            let number = fault.number();
            let verdict = verdict(number == 2 && fault == BudgetFault::AllowanceAboveEight);
            println!(rt; "a budget with allowance 9: refused with {number}: {verdict}")
        }
    }
}

fn main(rt: HostRuntime) -> io::Result<()> {
    let examples = examples();
    println!(rt; "worked examples that hold: {examples}")?;
    show_allowance(&rt)?;
    show_delayed(&rt)?;
    show_gated(&rt)?;
    show_bookings(&rt)
}
