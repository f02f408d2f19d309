//! Reads lines from standard input, and says what was done about each: tiles and masts made, transactions of them committed to
//! a ring, the ring walked and damaged, and a memory whose power is cut.
#![tactic(auto)]

mod memory;
mod ring_lines;

use crate::memory::run_memory;
use crate::ring_lines::run_ring;
use desk::ring_desk::RingDesk;
use desk::verbs::{Verb, verb_in};
use lines::split::first_line;
use nvms::devices::PatientNvm;
use reading::read_past;
use words::{InShort, InWords};
use workbench::perform::{LIMIT, check_input, run_line};

/// Runs a line about a tile or a mast, which then waits for a commit.
fn run_record(rt: &HostRuntime, desk: &mut RingDesk, line: &[u8]) -> anyhow::Result<()> {
    let answer = run_line(line);
    let words = InWords { answer: &answer };
    println!(rt; "{words}")?;
    if let Ok(done) = &answer {
        if let Err(why) = desk.hold(done.number, done.trip.unit) {
            let words = InShort { why };
            println!(rt; "  it does not wait for a commit, {words}")?;
        }
    }
    Ok(())
}

/// Runs the lines one by one and prints the answer to each under its number.
fn answer_lines(
    rt: &HostRuntime,
    desk: &mut RingDesk,
    nvm: &mut PatientNvm,
    text: &[u8],
) -> anyhow::Result<()> {
    let mut rest = text;
    let mut number = 1u64;
    // Kept: no index is counted, and an iterator of lines would be a type of its own for the same turn.
    while let Some(split) = first_line(rest) {
        print!(rt; "line {number}: ")?;
        match verb_in(split.line) {
            None => run_record(rt, desk, split.line)?,
            Some(Verb::Ring(verb)) => run_ring(rt, desk, verb)?,
            Some(Verb::Memory(verb)) => run_memory(rt, nvm, verb)?,
        }
        number = number.wrapping_add(1);
        rest = split.rest;
    }
    Ok(())
}

/// A desk and a memory, and all lines.
fn run_lines(rt: &HostRuntime, text: &[u8]) -> anyhow::Result<()> {
    let Ok(mut desk) = RingDesk::new(rt.alloc()) else {
        return Ok(println!(rt; "input: refused 9: no memory")?);
    };
    let Ok(mut nvm) = PatientNvm::zeroed(rt.alloc(), 1, u64::MAX) else {
        return Ok(println!(rt; "input: refused 9: no memory")?);
    };
    answer_lines(rt, &mut desk, &mut nvm, text)
}

fn tour(rt: &HostRuntime) -> anyhow::Result<()> {
    let text = read_past(rt.alloc(), rt.stdin(), LIMIT)?;
    match check_input(text.as_slice()) {
        Err(why) => {
            let answer = Err(why);
            let words = InWords { answer: &answer };
            Ok(println!(rt; "input: {words}")?)
        }
        Ok(()) => run_lines(rt, text.as_slice()),
    }
}

fn main(rt: HostRuntime) -> anyhow::Result<()> {
    tour(&rt)
}
