//! vectors: replays requests and their known answers, read from standard input.
#![tactic(auto)]

use certificates::lines::Lines;
use request::{Difference, Request};
use std::io;
use std::io::Read;
use text::open_text;

mod hex;
mod request;

fn main(rt: HostRuntime) -> anyhow::Result<()> {
    let mut input = Vec::new(rt.alloc());
    rt.stdin().read_to_end(&mut input)?;
    let mut agreed = 0u64;
    let mut differ = 0u64;
    for line in Lines::new(input.as_slice()) {
        match Request::read(rt.alloc(), line).and_then(|request| request.replay()) {
            Ok(()) => agreed = agreed.saturating_add(1),
            Err(Difference::Memory(error)) => return Err(error.into()),
            Err(difference) => {
                differ = differ.saturating_add(1);
                tell(&rt, line, difference)?;
            }
        }
    }
    println!(rt; "{agreed} agreed, {differ} differ")?;
    Ok(())
}

/// Prints a line that differs.
fn tell(rt: &HostRuntime, line: &[u8], difference: Difference) -> io::Result<()> {
    match open_text(line) {
        Ok(text) => println!(rt; "{difference:?}: {text}"),
        Err(fault) => println!(rt; "{difference:?}: {fault}"),
    }
}
