// Calls that show each number of a refusal, performed on small nets.
ghost use Rattle.std.specs.Prelude.{◌≡◌, true, Some, None};
ghost use Rattle.net.specs.declared.types.Refusal.TheVariants.{Fault};
ghost use Rattle.net.specs.Performed.{told_of};

use crate::{DelayUse, any_price, delayed, unused, verdict};
use kinds::{Budget, Kind, Pair};
use net::{Answer, Call, NetFault, Refusal, Request, Stream, perform};
use search::{Link, SearchFault};
use std::io;

type Limits = Pair<Budget, Budget>;

// A call in words, the number that it should get, 0 where it is not refused, and why it should be refused, if it should.
#[derive(Clone, Copy)]
struct Expected {
    call: &'static str,
    number: u16,
    refusal: Option<Refusal>,
}

fn accepted(call: &'static str) -> Expected
    ensures number { result.number ≡ 0 }
    ensures refusal { result.refusal ≡ None }
{
    Expected {
        call,
        number: 0,
        refusal: None,
    }
}

fn refused(call: &'static str, number: u16, refusal: Refusal) -> Expected
    ensures number { result.number ≡ number }
    ensures refusal { result.refusal ≡ Some refusal }
{
    Expected {
        call,
        number,
        refusal: Some(refusal),
    }
}

fn faulty(call: &'static str, number: u16, fault: NetFault) -> Expected
    ensures number { result.number ≡ number }
    ensures refusal { result.refusal ≡ Some (Fault fault) }
{
    refused(call, number, Refusal::Fault(fault))
}

// The number of a refusal, and 0 where there is none, as the ledger's answers have it.
fn number_of(answer: &Result<Answer, Refusal>) -> u16
    ensures { result ≡ (told_of answer.now).0 }
{
    match answer {
        Ok(_) => 0,
        Err(refusal) => refusal.number(),
    }
}

// The links and limits of this program are its own, as those of `planner` are: two examples need no crate between them.
// A link of capacity 100 that costs 2, with a delay of 3 and 5 more at its worst.
fn link(tail: u16, head: u16) -> Link<DelayUse>
    ensures { (result.tail ≡ tail) × ((result.head ≡ head) × (result.capacity ≡ 100)) }
{
    delayed(tail, head, 2, 3, 5)
}

fn limits() -> Limits
    ensures { (result.second.allowance ≡ 1) × (result.second.limit ≡ 11) }
{
    Pair {
        first: any_price(),
        second: Budget {
            allowance: 1,
            limit: 11,
        },
    }
}

// A booking from node 0.
fn book(
    stream: u16,
    target: u16,
    rate: u32,
    hop_limit: u16,
    places: usize,
) -> Call<Limits, DelayUse> {
    Call::Book {
        request: Request {
            stream,
            source: 0,
            target,
            rate,
            hop_limit,
        },
        kind: limits(),
        places,
    }
}

// Whether an answer has the number and the reason that are expected.
fn is_as_expected(answer: &Result<Answer, Refusal>, expected: &Expected) -> bool
    ensures { result ≡ true → (told_of answer.now).0 ≡ expected.now.number }
{
    number_of(answer) == expected.number && answer.err() == expected.refusal
}

// Prints each call with the number it got, and whether number and reason are those expected.
fn log(rt: &HostRuntime, all: &[Expected], answers: &[Result<Answer, Refusal>]) -> io::Result<()> {
    let mut answers = answers.iter();
    for expected in all {
        let call = expected.call;
        match answers.next() {
            Some(answer) => {
                let number = number_of(answer);
                let verdict = verdict(is_as_expected(answer, expected));
                println!(rt; "{call}: {number}: {verdict}")?;
            }
            None => println!(rt; "{call}: no answer: WRONG")?,
        }
    }
    Ok(())
}

// Performs the calls on a net of the nodes, with places for four links and two streams.
fn show(
    rt: &HostRuntime,
    nodes: u16,
    calls: &[Call<Limits, DelayUse>],
    all: &[Expected],
) -> io::Result<()> {
    let mut links = [link(0, 0); 4];
    let mut streams = [Stream {
        number: 0,
        rate: 0,
        figure: 0,
        hops: 0,
        links: [0; 16],
    }; 2];
    let mut labels = [unused(limits().start()); 8];
    match perform(
        rt.alloc(),
        nodes,
        &mut links,
        &mut streams,
        &mut labels,
        calls,
    ) {
        Err(_) => println!(rt; "no memory for the answers: WRONG"),
        Ok(shift) => log(rt, all, &shift.answers),
    }
}

fn show_laying(rt: &HostRuntime) -> io::Result<()> {
    let calls = [
        Call::Add(link(4, 1)),
        Call::Add(link(0, 4)),
        Call::Add(link(1, 1)),
        Call::Add(link(0, 1)),
        Call::Add(link(1, 2)),
        Call::Add(link(2, 3)),
        Call::Add(link(0, 3)),
        Call::Add(link(3, 0)),
        Call::Withdraw(4),
        Call::Withdraw(3),
        book(7, 1, 60, 4, 8),
        Call::Release(7),
        Call::Show(7),
        Call::Load(0),
        Call::Close,
    ];
    let all = [
        faulty("four nodes: add 4 to 1", 3, NetFault::Tail),
        faulty("add 0 to 4", 4, NetFault::Head),
        faulty("add 1 to 1", 5, NetFault::LinkEnds),
        accepted("add 0 to 1"),
        accepted("add 1 to 2"),
        accepted("add 2 to 3"),
        accepted("add 0 to 3"),
        faulty("add 3 to 0 to a full table", 6, NetFault::LinksFull),
        faulty("withdraw 4 of four links", 7, NetFault::NoLink),
        accepted("withdraw 3"),
        refused("book while laid", 22, Refusal::NotTaken),
        refused("release while laid", 22, Refusal::NotTaken),
        refused("show while laid", 22, Refusal::NotTaken),
        refused("load while laid", 22, Refusal::NotTaken),
        refused("close while laid", 22, Refusal::NotTaken),
    ];
    show(rt, 4, &calls, &all)
}

fn show_serving(rt: &HostRuntime) -> io::Result<()> {
    let calls = [
        Call::Add(link(0, 1)),
        Call::Add(link(1, 2)),
        Call::Open,
        Call::Add(link(0, 2)),
        Call::Withdraw(0),
        Call::Open,
        book(0, 1, 60, 4, 8),
        book(7, 4, 60, 4, 8),
        book(7, 0, 60, 4, 8),
        book(7, 1, 0, 4, 8),
        book(7, 1, 60, 0, 8),
        book(7, 1, 60, 17, 8),
        book(7, 2, 60, 1, 8),
        book(7, 2, 60, 4, 2),
        book(7, 2, 60, 4, 3),
        book(7, 1, 40, 4, 8),
        book(8, 1, 41, 4, 8),
        book(8, 1, 40, 4, 8),
        book(9, 1, 1, 4, 8),
        Call::Release(9),
        Call::Show(9),
        Call::Show(8),
        Call::Load(2),
        Call::Load(0),
        Call::Release(7),
        Call::Close,
        Call::Close,
    ];
    let all = [
        accepted("four nodes: add 0 to 1"),
        accepted("add 1 to 2"),
        accepted("open"),
        refused("add in service", 22, Refusal::NotTaken),
        refused("withdraw in service", 22, Refusal::NotTaken),
        refused("open in service", 22, Refusal::NotTaken),
        faulty("book stream 0", 8, NetFault::StreamZero),
        faulty("book to node 4", 12, NetFault::Target),
        faulty("book to its source", 13, NetFault::StreamEnds),
        faulty("book at rate 0", 14, NetFault::Rate),
        faulty("book with hop limit 0", 15, NetFault::HopLimit),
        faulty("book with hop limit 17", 15, NetFault::HopLimit),
        faulty(
            "book two hops with hop limit 1",
            17,
            NetFault::Search(SearchFault::NoRoute),
        ),
        faulty(
            "book two hops with 2 label places",
            16,
            NetFault::Search(SearchFault::Full),
        ),
        accepted("book two hops with 3 label places"),
        faulty("book a stream that stands", 9, NetFault::StreamTaken),
        faulty(
            "book rate 41 over capacity 100, load 60",
            17,
            NetFault::Search(SearchFault::NoRoute),
        ),
        accepted("book rate 40 over capacity 100, load 60"),
        faulty(
            "book with two streams in a table of two",
            10,
            NetFault::BookFull,
        ),
        faulty(
            "release a stream that does not stand",
            18,
            NetFault::NoStream,
        ),
        faulty("show a stream that does not stand", 18, NetFault::NoStream),
        accepted("show 8"),
        faulty("load of link 2 of two", 7, NetFault::NoLink),
        accepted("load of link 0"),
        accepted("release 7"),
        accepted("close"),
        refused("close again", 22, Refusal::NotTaken),
    ];
    show(rt, 4, &calls, &all)
}

fn show_worked(rt: &HostRuntime) -> io::Result<()> {
    let calls = [
        Call::Open,
        book(7, 3, 60, 4, 1),
        book(7, 3, 60, 4, 0),
        Call::Close,
        Call::Add(link(0, 1)),
    ];
    let all = [
        accepted("four nodes, no links: open"),
        faulty(
            "book with one label place",
            17,
            NetFault::Search(SearchFault::NoRoute),
        ),
        faulty(
            "book with no label place",
            16,
            NetFault::Search(SearchFault::Full),
        ),
        accepted("close"),
        accepted("add after close"),
    ];
    show(rt, 4, &calls, &all)?;
    let calls = [Call::Add(link(0, 1)), Call::Open, book(7, 1, 60, 4, 8)];
    let all = [
        faulty("one node: add 0 to 1", 3, NetFault::Tail),
        accepted("open"),
        faulty("book from node 0", 11, NetFault::Source),
    ];
    show(rt, 1, &calls, &all)
}

pub fn show_bookings(rt: &HostRuntime) -> io::Result<()> {
    show_laying(rt)?;
    show_serving(rt)?;
    show_worked(rt)
}
