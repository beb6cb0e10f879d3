// A shift on a small net: lays it, opens it, books, releases, shows and closes, and prints each call with its answer.
#![tactic(auto)]

ghost use Rattle.std.specs.Prelude.{◌≡◌};

use kinds::{Budget, BudgetUse, Kind, Pair, PairUse};
use net::{Answer, Call, Refusal, Request, Stream, perform};
use search::{Label, Link};
use std::{fmt, io};

const LABEL_PLACES: usize = 16;

// The price of a route comes first, and its delay second.
type Limits = Pair<Budget, Budget>;

type Take = PairUse<BudgetUse, BudgetUse>;

// A call with its answer, as a line of the log.
#[derive(Drop)]
struct Line<'a> {
    call: &'a Call<Limits, Take>,
    answer: &'a Result<Answer, Refusal>,
}

impl<'a> fmt::Display for Line<'a> {
    fn fmt<W: fmt::Write>(&self, f: &mut fmt::Formatter<W>) -> fmt::Result {
        match *self.call {
            Call::Add(link) => {
                let tail = link.tail;
                let head = link.head;
                write!(f, "add {tail} to {head}: ")?;
            }
            Call::Withdraw(link) => write!(f, "withdraw {link}: ")?,
            Call::Open => write!(f, "open: ")?,
            Call::Book {
                request,
                kind,
                places,
            } => {
                let stream = request.stream;
                write!(f, "book {stream}: ")?;
            }
            Call::Release(stream) => write!(f, "release {stream}: ")?,
            Call::Show(stream) => write!(f, "show {stream}: ")?,
            Call::Load(link) => write!(f, "load {link}: ")?,
            Call::Close => write!(f, "close: ")?,
        }
        match self.answer {
            Ok(Answer::Done) => write!(f, "done"),
            Ok(Answer::Added(number)) => write!(f, "link {number}"),
            Ok(Answer::Booked(figure, hops, labels)) => {
                write!(f, "figure {figure}, hops {hops}, labels {labels}")
            }
            Ok(
                Answer::Shown {
                    figure,
                    rate,
                    hops,
                    links,
                },
            ) => {
                write!(f, "figure {figure}, rate {rate}, links")?;
                for link in links.iter().take(usize::from(*hops)) {
                    write!(f, " {link}")?;
                }
                Ok(())
            }
            Ok(Answer::Loaded(load)) => write!(f, "load {load}"),
            Ok(Answer::Ended(streams)) => write!(f, "ended {streams}"),
            Err(Refusal::Fault(fault)) => {
                let number = fault.number();
                write!(f, "refused with {number}")
            }
            Err(Refusal::NotTaken) => write!(f, "not taken in this state"),
        }
    }
}

// Links and limits are this program's own, as those of `edges` are: two examples need no crate between them.
// A link of capacity 100 that always costs its price.
fn link(tail: u16, head: u16, price: u16, delay: u16, extra: u16) -> Link<Take>
    ensures ends { (result.tail ≡ tail) × ((result.head ≡ head) × (result.capacity ≡ 100)) }
    ensures takes { (result.taken.first.nominal ≡ price) × ((result.taken.second.nominal ≡ delay) × (result.taken.second.extra ≡ extra)) }
{
    Link {
        tail,
        head,
        capacity: 100,
        taken: PairUse {
            first: BudgetUse {
                nominal: price,
                extra: 0,
            },
            second: BudgetUse {
                nominal: delay,
                extra,
            },
        },
    }
}

// Any price; a delay of at most 11 with one link at its worst.
fn limits() -> Limits
    ensures { (result.second.allowance ≡ 1) × (result.second.limit ≡ 11) }
{
    Pair {
        first: Budget {
            allowance: 0,
            limit: u32::MAX,
        },
        second: Budget {
            allowance: 1,
            limit: 11,
        },
    }
}

// A booking from node 0 to node 3 at rate 60 with at most 4 hops.
fn book(stream: u16) -> Call<Limits, Take> {
    Call::Book {
        request: Request {
            stream,
            source: 0,
            target: 3,
            rate: 60,
            hop_limit: 4,
        },
        kind: limits(),
        places: LABEL_PLACES,
    }
}

// Prints each call with its answer.
fn log<'x>(
    rt: &HostRuntime,
    calls: &'x [Call<Limits, Take>],
    answers: &'x [Result<Answer, Refusal>],
) -> io::Result<()> {
    for (call, answer) in calls.iter().zip(answers.iter()) {
        let line = Line { call, answer };
        println!(rt; "{line}")?;
    }
    Ok(())
}

fn main(rt: HostRuntime) -> io::Result<()> {
    let calls = [
        Call::Add(link(0, 1, 2, 3, 5)),
        Call::Add(link(1, 3, 2, 3, 4)),
        Call::Add(link(0, 2, 3, 4, 1)),
        Call::Add(link(2, 3, 3, 4, 1)),
        Call::Open,
        book(7),
        book(8),
        book(9),
        Call::Release(7),
        Call::Show(8),
        Call::Close,
    ];
    let mut links = [link(0, 0, 0, 0, 0); 8];
    let mut streams = [Stream {
        number: 0,
        rate: 0,
        figure: 0,
        hops: 0,
        links: [0; 16],
    }; 8];
    let mut labels = [Label {
        node: 0,
        hops: 0,
        state: limits().start(),
        from: 0,
        link: 0,
    }; LABEL_PLACES];
    match perform(rt.alloc(), 4, &mut links, &mut streams, &mut labels, &calls) {
        Err(_) => println!(rt; "no memory for the answers"),
        Ok(shift) => log(&rt, &calls, &shift.answers),
    }
}
