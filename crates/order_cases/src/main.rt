// Order files at the edges of the rules: each with its answers, held to those that the rules give.
// Among them is every refusal but 19: a show has sixteen places of its own, as many as a route can have links.
#![tactic(auto)]

use orders::answer_file;
use std::alloc::{AllocError, Global};
use std::io;

// A name, a file, and the answers to it.
type Case = (&'static str, &'static [u8], &'static str);

// How a file is parted into lines, and what an order is.
const LINES: [Case; 6] = [
    ("an empty file", b"", ""),
    ("one line feed", b"\n", "1,refused,21,0\n"),
    ("no last line feed", b"net,plain,2\nopen", "1,ok\n2,ok\n"),
    (
        "carriage returns",
        b"net,plain,2\r\nnet,plain,2\nlink,0,1,9,1,0,1,0\r\nopen\r\nopen\n\r\n",
        "1,refused,24,3\n2,ok\n3,refused,24,8\n4,refused,21,0\n5,ok\n6,refused,21,0\n",
    ),
    (
        "bytes above 127 and zero bytes",
        b"n\xc3\xa9t,plain,2\n\x00\nnet,pl\xe4in,2\nnet,plain,\xff\nnet,plain,2\x00\nnet,plain,2\n\x80\xff\nopen\x00\nopen\n",
        "1,refused,21,0\n2,refused,21,0\n3,refused,24,2\n4,refused,24,3\n5,refused,24,3\n6,ok\n7,refused,21,0\n8,refused,21,0\n9,ok\n",
    ),
    (
        "words that are no order",
        b"Net,plain,2\nnets,plain,2\n net,plain,2\nadd,0\n0\n,net,plain,2\nnet,plain,2\nLINK,0,1,9,1,0,1,0\n# a comment\nopen \n",
        "1,refused,21,0\n2,refused,21,0\n3,refused,21,0\n4,refused,21,0\n5,refused,21,0\n6,refused,21,0\n7,ok\n8,refused,21,0\n9,refused,21,0\n10,refused,21,0\n",
    ),
];

const NUMBERS: [Case; 4] = [
    (
        "eleven digits",
        b"net,plain,00000000002\nnet,plain,2\nlink,0,1,00000000009,1,0,1,0\n",
        "1,refused,24,3\n2,ok\n3,refused,24,4\n",
    ),
    (
        "ten digits with leading zeros",
        b"net,plain,0000000002\nlink,0000000000,0000000001,0000000009,0000000001,0,1,0\nopen\nbook,0000000007,0,1,0000000009,1,0,0,0000000001\nshow,0000000007\n",
        "1,ok\n2,ok,0\n3,ok\n4,ok,1,1,2\n5,ok,1,9,0\n",
    ),
    (
        "the ends of 16 bits",
        b"net,plain,65536\nnet,plain,65535\nnet,plain,2\nlink,65536,1,9,1,0,1,0\nlink,65535,1,9,1,0,1,0\nlink,0,1,9,65536,0,1,0\nlink,0,1,9,65535,65535,65535,65535\nwithdraw,65536\nwithdraw,65535\nopen\nbook,65536,0,1,1,1,1,1,131070\nbook,65535,0,1,1,1,1,1,131069\nbook,65535,0,1,1,1,1,1,131070\nrelease,65536\nrelease,65535\n",
        "1,refused,24,3\n2,refused,1,0\n3,ok\n4,refused,24,2\n5,refused,3,0\n6,refused,24,5\n7,ok,0\n8,refused,24,2\n9,refused,7,0\n10,ok\n11,refused,24,2\n12,refused,17,0\n13,ok,131070,1,2\n14,refused,24,2\n15,ok\n",
    ),
    (
        "the ends of 32 bits",
        b"net,plain,2\nlink,0,1,4294967296,1,0,1,0\nlink,0,1,4294967295,1,0,1,0\nopen\nbook,1,0,1,4294967296,1,0,0,9\nbook,1,0,1,9,1,0,0,4294967296\nbook,1,0,1,4294967295,1,0,0,4294967295\nload,0\nbook,2,0,1,1,1,0,0,9\n",
        "1,ok\n2,refused,24,4\n3,ok,0\n4,ok\n5,refused,24,5\n6,refused,24,9\n7,ok,1,1,2\n8,ok,4294967295\n9,refused,17,0\n",
    ),
];

// First the count of the fields, then the first bad one.
const FIELDS: [Case; 5] = [
    (
        "a field too many",
        b"net,plain,2,2\nnet,plain,2,\nnet,plain,2\nlink,0,1,9,1,0,1,0,0\nwithdraw,0,0\nopen,0\nopen,\nopen\nbook,1,0,1,1,1,0,0,9,9\nrelease,1,1\nshow,1,1\nload,0,0\nclose,\nclose\n",
        "1,refused,23,0\n2,refused,23,0\n3,ok\n4,refused,23,0\n5,refused,23,0\n6,refused,23,0\n7,refused,23,0\n8,ok\n9,refused,23,0\n10,refused,23,0\n11,refused,23,0\n12,refused,23,0\n13,refused,23,0\n14,ok,0\n",
    ),
    (
        "a field too few",
        b"net\nnet,plain\nnet,plain,2\nlink\nlink,0,1,9,1,0,1\nwithdraw\nopen\nbook,1,0,1,1,1,0,0\nrelease\nshow\nload\n",
        "1,refused,23,0\n2,refused,23,0\n3,ok\n4,refused,23,0\n5,refused,23,0\n6,refused,23,0\n7,ok\n8,refused,23,0\n9,refused,23,0\n10,refused,23,0\n11,refused,23,0\n",
    ),
    (
        "a wrong count with a bad field",
        b"net,x\nnet,x,y,z\nnet,plain,2\nlink,x,1\nwithdraw,x,1\nopen,x\nopen\nbook,x\nshow,x,y\nclose,x\n",
        "1,refused,23,0\n2,refused,23,0\n3,ok\n4,refused,23,0\n5,refused,23,0\n6,refused,23,0\n7,ok\n8,refused,23,0\n9,refused,23,0\n10,refused,23,0\n",
    ),
    (
        "two bad fields",
        b"net,round,x\nnet,plain,x\nnet,plain,2\nlink,x,1,y,1,0,1,0\nlink,0,1,y,1,0,z,0\nlink,0,1,9,1,0,1,z\nlink,,1,,1,0,1,0\nopen\nbook,1,0,x,1,1,0,y,9\nbook,1,0,1,1,1,0,0,z\n",
        "1,refused,24,2\n2,refused,24,3\n3,ok\n4,refused,24,2\n5,refused,24,4\n6,refused,24,8\n7,refused,24,2\n8,ok\n9,refused,24,4\n10,refused,24,9\n",
    ),
    (
        "the fields of a gated site",
        b"net,gated,2\nlink,0,1,9,1,0,1,0\nlink,0,1,9,1,0,1,0,65535,x\nlink,0,1,9,1,0,1,0,65535,65535\nopen\nbook,1,0,1,1,1,0,0,9\nbook,1,0,1,1,1,0,65536\nbook,1,0,1,1,1,0,65534\n",
        "1,ok\n2,refused,23,0\n3,refused,24,10\n4,ok,0\n5,ok\n6,refused,23,0\n7,refused,24,8\n8,ok,1,1,2\n",
    ),
];

// When each order is allowed; this is asked before its fields.
const STATES: [Case; 4] = [
    (
        "orders before a net",
        b"link,0,1,9,1,0,1,0\nwithdraw,0\nopen\nbook,1,0,1,1,1,0,0,9\nrelease,1\nshow,1\nload,0\nclose\nstart\nnet,plain,2\n",
        "1,refused,22,0\n2,refused,22,0\n3,refused,22,0\n4,refused,22,0\n5,refused,22,0\n6,refused,22,0\n7,refused,22,0\n8,refused,22,0\n9,refused,21,0\n10,ok\n",
    ),
    (
        "a second net",
        b"net,plain,2\nnet,plain,2\nnet,gated,x\nopen\nnet\nclose\nnet,plain,2\n",
        "1,ok\n2,refused,22,0\n3,refused,22,0\n4,ok\n5,refused,22,0\n6,ok,0\n7,refused,22,0\n",
    ),
    (
        "refused nets and a good one",
        b"net,plain,1\nnet,plain,129\nnet,gated,0\nopen\nnet,gated,128\nnet,gated,128\n",
        "1,refused,1,0\n2,refused,1,0\n3,refused,1,0\n4,refused,22,0\n5,ok\n6,refused,22,0\n",
    ),
    (
        "a bad field in the wrong state",
        b"link,x,1,9,1,0,1,0\nbook,x\nnet,plain,2\nrelease,x\nnet,x,y\nopen\nwithdraw,x\nlink,x\nopen,x\n",
        "1,refused,22,0\n2,refused,22,0\n3,ok\n4,refused,22,0\n5,refused,22,0\n6,ok\n7,refused,22,0\n8,refused,22,0\n9,refused,22,0\n",
    ),
];

const CALLS: [Case; 7] = [
    (
        "each question of a link",
        b"net,plain,2\nlink,2,2,9,1,0,1,0\nlink,0,2,9,1,0,1,0\nlink,1,1,9,1,0,1,0\nwithdraw,0\nlink,0,1,9,1,0,1,0\nlink,1,0,9,1,0,1,0\nwithdraw,0\nwithdraw,1\nlink,0,1,9,1,0,1,0\n",
        "1,ok\n2,refused,3,0\n3,refused,4,0\n4,refused,5,0\n5,refused,7,0\n6,ok,0\n7,ok,1\n8,ok\n9,refused,7,0\n10,ok,1\n",
    ),
    (
        "each question of a booking",
        b"net,plain,3\nlink,0,1,9,1,0,1,0\nopen\nbook,0,3,3,0,0,0,0,9\nbook,1,0,1,1,1,0,0,9\nbook,1,3,3,0,0,0,0,9\nbook,2,3,3,0,0,0,0,9\nbook,2,0,3,0,0,0,0,9\nbook,2,0,0,0,0,0,0,9\nbook,2,0,1,0,0,0,0,9\nbook,2,0,1,1,0,0,0,9\nbook,2,0,1,1,17,0,0,9\nbook,2,0,1,1,16,0,0,9\nbook,3,0,2,1,1,0,0,9\nbook,3,0,1,8,1,0,0,9\nbook,3,0,1,7,1,0,0,9\nload,0\nload,1\nrelease,4\nshow,4\nshow,0\n",
        "1,ok\n2,ok,0\n3,ok\n4,refused,8,0\n5,ok,1,1,2\n6,refused,9,0\n7,refused,11,0\n8,refused,12,0\n9,refused,13,0\n10,refused,14,0\n11,refused,15,0\n12,refused,15,0\n13,ok,1,1,2\n14,refused,17,0\n15,refused,17,0\n16,ok,1,1,2\n17,ok,9\n18,refused,7,0\n19,refused,18,0\n20,refused,18,0\n21,refused,18,0\n",
    ),
    (
        "an allowance of nine",
        b"net,plain,2\nlink,0,1,9,1,0,1,0\nopen\nbook,0,0,1,1,1,9,0,9\nbook,0,0,1,1,1,0,9,9\nbook,0,9,9,0,0,9,9,9\nbook,0,0,1,1,1,8,8,9\nbook,1,0,1,1,1,8,8,9\n",
        "1,ok\n2,ok,0\n3,ok\n4,refused,2,0\n5,refused,2,0\n6,refused,2,0\n7,refused,8,0\n8,ok,1,1,2\n",
    ),
    (
        "an allowance of nine on a gated site",
        b"net,gated,2\nopen\nbook,0,0,1,1,1,9,0\nbook,0,0,1,1,1,8,0\n",
        "1,ok\n2,ok\n3,refused,2,0\n4,refused,8,0\n",
    ),
    (
        "released, closed and laid again",
        b"net,plain,3\nlink,0,1,9,2,1,3,1\nlink,1,2,9,2,3,3,1\nopen\nbook,5,0,2,4,2,1,1,6\nbook,5,0,2,4,2,1,1,7\nshow,5\nload,1\nrelease,5\nshow,5\nrelease,5\nload,1\nclose\nbook,5,0,2,4,2,1,1,7\nlink,2,0,9,1,0,1,0\nwithdraw,0\nopen\nbook,5,1,0,9,2,0,2,5\nshow,5\nclose\n",
        "1,ok\n2,ok,0\n3,ok,1\n4,ok\n5,refused,17,0\n6,ok,7,2,3\n7,ok,7,4,0,1\n8,ok,4\n9,ok\n10,refused,18,0\n11,refused,18,0\n12,ok,0\n13,ok,0\n14,refused,22,0\n15,ok,2\n16,ok\n17,ok\n18,ok,3,2,3\n19,ok,3,9,0,1\n20,ok,1\n",
    ),
    (
        "a gate that closes and a duct that comes twice",
        b"net,gated,3\nlink,0,1,10,5,2,4,12,12,3\nlink,1,2,10,5,2,1,0,65535,3\nlink,1,2,10,9,2,1,0,12,64\nopen\nbook,1,0,1,1,2,1,5\nbook,2,0,2,1,2,1,5\nclose\nlink,1,2,10,9,2,1,0,13,4\nopen\nbook,2,0,2,1,2,1,5\nshow,2\nbook,3,0,2,1,2,1,8\nbook,4,0,2,1,2,1,9\n",
        "1,ok\n2,ok,0\n3,ok,1\n4,ok,2\n5,ok\n6,ok,7,1,2\n7,refused,17,0\n8,ok,1\n9,ok,3\n10,ok\n11,ok,16,2,3\n12,ok,16,1,0,3\n13,ok,16,2,3\n14,refused,17,0\n",
    ),
    (
        "511, 512 and 513 labels",
        b"net,plain,11\nlink,0,1,9,1,0,0,0\nlink,0,1,9,0,0,1,0\nlink,1,2,9,2,0,0,0\nlink,1,2,9,0,0,2,0\nlink,2,3,9,4,0,0,0\nlink,2,3,9,0,0,4,0\nlink,3,4,9,8,0,0,0\nlink,3,4,9,0,0,8,0\nlink,4,5,9,16,0,0,0\nlink,4,5,9,0,0,16,0\nlink,5,6,9,32,0,0,0\nlink,5,6,9,0,0,32,0\nlink,6,7,9,64,0,0,0\nlink,6,7,9,0,0,64,0\nlink,7,8,9,128,0,0,0\nlink,7,8,9,0,0,128,0\nopen\nbook,1,0,8,1,16,0,0,65535\nclose\nlink,0,9,9,1,0,1,0\nopen\nbook,1,0,8,1,16,0,0,65535\nclose\nlink,0,10,9,1,0,1,0\nopen\nbook,1,0,8,1,16,0,0,65535\nclose\n",
        "1,ok\n2,ok,0\n3,ok,1\n4,ok,2\n5,ok,3\n6,ok,4\n7,ok,5\n8,ok,6\n9,ok,7\n10,ok,8\n11,ok,9\n12,ok,10\n13,ok,11\n14,ok,12\n15,ok,13\n16,ok,14\n17,ok,15\n18,ok\n19,ok,0,8,511\n20,ok,1\n21,ok,16\n22,ok\n23,ok,0,8,512\n24,ok,1\n25,ok,17\n26,ok\n27,refused,16,0\n28,ok,0\n",
    ),
];

// Said in the other program over cases too: two programs need no crate between them for three lines.
fn verdict(is_expected: bool) -> &'static str {
    if is_expected {
        "as expected"
    } else {
        "NOT as expected"
    }
}

fn show(rt: &HostRuntime, name: &str, text: &[u8], expected: &str) -> io::Result<()> {
    match answer_file(rt.alloc(), text) {
        Ok(answers) => {
            let verdict = verdict(answers.as_str() == expected);
            println!(rt; "-- {name}: {verdict}")?;
            print!(rt; "{answers}")
        }
        Err(fault) => println!(rt; "-- {name}: {fault}"),
    }
}

fn show_all(rt: &HostRuntime, cases: &[Case]) -> io::Result<()> {
    for (name, text, expected) in cases {
        show(rt, *name, *text, *expected)?;
    }
    Ok(())
}

// Shows how many answers there are; the last of them is held to the one expected.
fn show_end(
    rt: &HostRuntime,
    name: &str,
    text: &[u8],
    expected_count: usize,
    expected_last: &str,
) -> io::Result<()> {
    match answer_file(rt.alloc(), text) {
        Ok(answers) => {
            let count = answers.lines().count();
            let last = answers.lines().last();
            let verdict = verdict(count == expected_count && last == Some(expected_last));
            println!(rt; "-- {name}: {verdict}")?;
            println!(rt; "answers {count}")
        }
        Err(fault) => println!(rt; "-- {name}: {fault}"),
    }
}

// The start of a file, and then the same text again and again.
fn repeated(heap: Global, start: &str, more: &str, times: usize) -> Result<String, AllocError> {
    let mut text = String::from_str(heap, start)?;
    text.push_str(&more.repeat(heap, times)?)?;
    Ok(text)
}

// A file that books so many streams over one link.
fn bookings(heap: Global, streams: u16) -> Result<String, AllocError> {
    let mut text = String::from_str(heap, "net,plain,2\nlink,0,1,100,1,0,1,0\nopen\n")?;
    for number in 1..=streams {
        writeln!(text, "book,{number},0,1,1,1,0,0,1")?;
    }
    Ok(text)
}

fn show_long(rt: &HostRuntime) -> io::Result<()> {
    let feeds = repeated(rt.alloc(), "", "\n", 60_000)?;
    show_end(
        rt,
        "60,000 line feeds",
        feeds.as_bytes(),
        60_000,
        "60000,refused,21,0",
    )?;
    let more = repeated(rt.alloc(), "", "\n", 60_001)?;
    show_end(
        rt,
        "60,001 line feeds",
        more.as_bytes(),
        1,
        "0,refused,20,0",
    )?;
    let line = repeated(rt.alloc(), "", "x", 60_000)?;
    show_end(
        rt,
        "a line of 60,000 bytes",
        line.as_bytes(),
        1,
        "1,refused,21,0",
    )?;
    let longer = repeated(rt.alloc(), "net,plain,2\n", "x", 59_989)?;
    show_end(
        rt,
        "a net in a file of 60,001 bytes",
        longer.as_bytes(),
        1,
        "0,refused,20,0",
    )
}

fn show_tables(rt: &HostRuntime) -> io::Result<()> {
    let links = repeated(rt.alloc(), "net,plain,2\n", "link,0,1,9,1,0,1,0\n", 512)?;
    show_end(rt, "512 links", links.as_bytes(), 513, "513,ok,511")?;
    let more = repeated(rt.alloc(), "net,plain,2\n", "link,0,1,9,1,0,1,0\n", 513)?;
    show_end(rt, "513 links", more.as_bytes(), 514, "514,refused,6,0")?;
    let streams = bookings(rt.alloc(), 64)?;
    show_end(rt, "64 streams", streams.as_bytes(), 67, "67,ok,1,1,2")?;
    let more = bookings(rt.alloc(), 65)?;
    show_end(rt, "65 streams", more.as_bytes(), 68, "68,refused,10,0")
}

fn main(rt: HostRuntime) -> io::Result<()> {
    show_all(&rt, &LINES)?;
    show_all(&rt, &NUMBERS)?;
    show_all(&rt, &FIELDS)?;
    show_all(&rt, &STATES)?;
    show_all(&rt, &CALLS)?;
    show_long(&rt)?;
    show_tables(&rt)
}
