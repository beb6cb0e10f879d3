// Answers an order file: reads it from standard input and writes a line for each of its lines.
#![tactic(auto)]

use orders::answer_file;
use std::io::Read;

// A program that cannot read, write or get memory says so on standard error, and ends with status 1.
fn main(rt: HostRuntime) -> anyhow::Result<()> {
    let mut text = Vec::new(rt.alloc());
    rt.stdin().read_to_end(&mut text)?;
    let answers = answer_file(rt.alloc(), &text)?;
    print!(rt; "{answers}")?;
    Ok(())
}
