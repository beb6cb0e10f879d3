// Audits one route: what it comes to when the allowed number of links are at their worst together.
#![tactic(auto)]

use std::io;
use std::io::Read;

fn main(rt: HostRuntime) -> io::Result<()> {
    let mut text = Vec::new(rt.alloc());
    rt.stdin().read_to_end(&mut text)?;
    match sheet::audit(rt.alloc(), &text) {
        Ok(audit) => println!(rt; "{audit}"),
        Err(fault) => println!(rt; "{fault}"),
    }
}
