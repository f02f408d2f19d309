//! Reads a script from standard input, runs it on a new store, and prints a line for each of its lines.
#![tactic(auto)]

use anyhow::anyhow;
use fresh::run_fresh;
use reading::read_past;
use session::script::MOST_BYTES;
use std::io::Write;

fn script(rt: &HostRuntime) -> anyhow::Result<()> {
    let input = read_past(rt.alloc(), rt.stdin(), MOST_BYTES)?;
    let output = run_fresh(rt.alloc(), input.as_slice()).map_err(|_| anyhow!("no memory"))?;
    Ok(rt.stdout().write_all(output.as_slice())?)
}

fn main(rt: HostRuntime) -> anyhow::Result<()> {
    script(&rt)
}
