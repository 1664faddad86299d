// Decodes and judges the marked sheets and others, and prints a line for each.
#![tactic(auto)]

mod boards;
mod decoding;
mod output;
mod unopened;
mod verdicts;

use std::io;

fn main(rt: HostRuntime) -> io::Result<()> {
    decoding::all(&rt)?;
    verdicts::all(&rt)
}
