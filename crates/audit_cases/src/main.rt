// Audits that show each kind of answer, on sheets of its own.
#![tactic(auto)]

use std::io;

const SHEETS: [(&str, &[u8]); 10] = [
    (
        "the bottling line",
        b"budget,3,850\nlink,95,40\nlink,110,55\nlink,130,20\nlink,88,62\nlink,142,35\nlink,76,18\n",
    ),
    (
        "the gated line",
        b"gated,1200\nlink,180,1000,1500,3\nlink,240,1700,1900,7\nlink,150,1600,2000,12\nlink,320,2000,2300,64\nlink,210,2100,2500,21\n",
    ),
    ("over the limit", b"budget,1,10\nlink,3,5\nlink,3,4\n"),
    (
        "at the limit, with no last line feed",
        b"budget,1,11\nlink,3,5\nlink,3,4",
    ),
    (
        "no link at its worst",
        b"budget,0,4294967295\nlink,65535,65535\n",
    ),
    (
        "more allowed than there are links",
        b"budget,8,9\nlink,3,5\n",
    ),
    (
        "a gate that is missed",
        b"gated,5\nlink,4,12,11,0\nlink,1,0,65535,63\n",
    ),
    (
        "a duct that is passed twice",
        b"gated,0\nlink,1,0,9,5\nlink,1,0,9,64\nlink,1,0,9,5\n",
    ),
    (
        "a missed gate and a doubled duct",
        b"gated,9\nlink,1,0,9,64\nlink,1,0,9,1\nlink,1,0,99,1\n",
    ),
    (
        "sixteen links",
        b"budget,8,2097120\nlink,65535,65535\nlink,65535,65535\nlink,65535,65535\nlink,65535,65535\nlink,65535,65535\nlink,65535,65535\nlink,65535,65535\nlink,65535,65535\nlink,65535,65535\nlink,65535,65535\nlink,65535,65535\nlink,65535,65535\nlink,65535,65535\nlink,65535,65535\nlink,65535,65535\nlink,65535,65535\n",
    ),
];

const FAULTY: [(&str, &[u8]); 17] = [
    (
        "seventeen links",
        b"budget,1,9\nlink,1,1\nlink,1,1\nlink,1,1\nlink,1,1\nlink,1,1\nlink,1,1\nlink,1,1\nlink,1,1\nlink,1,1\nlink,1,1\nlink,1,1\nlink,1,1\nlink,1,1\nlink,1,1\nlink,1,1\nlink,1,1\nwrong\n",
    ),
    ("an empty sheet", b""),
    ("an empty first line", b"\nlink,1,1\n"),
    ("another word first", b"link,1,1\n"),
    ("bytes above 127", b"b\xc3\xbcdget,1,9\nlink,1,1\n"),
    ("a missing limit", b"budget,1\nlink,1,1\n"),
    ("a limit and more", b"budget,1,9,9\nlink,1,1\n"),
    ("a missing start", b"gated\nlink,1,1,1,1\n"),
    (
        "an allowance that is no number",
        b"budget,one,9\nlink,1,1\n",
    ),
    ("a limit past 32 bits", b"budget,9,4294967296\nlink,1,1\n"),
    ("an allowance of nine", b"budget,9,9\nwrong\n"),
    ("no links", b"budget,1,9\n"),
    (
        "a line that is no link",
        b"gated,1\nlink,1,1,1,1\nlinks,1,1,1,1\n",
    ),
    ("an empty line at the end", b"budget,1,9\nlink,1,1\n\n"),
    (
        "a missing extra, before a bad nominal",
        b"budget,1,9\nlink,x\n",
    ),
    (
        "a surplus field, after a bad nominal",
        b"budget,1,9\nlink,x,1,1\n",
    ),
    ("a number past 16 bits", b"gated,1\nlink,1,1,65536,1\n"),
];

fn show(rt: &HostRuntime, name: &str, text: &[u8]) -> io::Result<()> {
    println!(rt; "-- {name}")?;
    match sheet::audit(rt.alloc(), text) {
        Ok(audit) => println!(rt; "{audit}"),
        Err(fault) => println!(rt; "{fault}"),
    }
}

fn show_all(rt: &HostRuntime, cases: &[(&str, &[u8])]) -> io::Result<()> {
    for &(name, text) in cases {
        show(rt, name, text)?;
    }
    Ok(())
}

fn main(rt: HostRuntime) -> io::Result<()> {
    let examples = kinds::worked_examples();
    let sheets = sheet::worked_sheets();
    println!(rt; "worked examples of the kinds: {examples}")?;
    println!(rt; "worked sheets: {sheets}")?;
    show_all(&rt, &SHEETS)?;
    show_all(&rt, &FAULTY)
}
