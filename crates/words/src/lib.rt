//! Answers in words that a planner understands. Nothing is proved of these texts but that they can always be written.
#![tactic(auto)]

use joined::record::Joined;
use mast::record::Mast;
use refusal::reason::Refusal;
use std::fmt;
use tile::record::Tile;
use workbench::answer::{Answer, Complaint, Done, code};

pub mod memory;
pub mod ring_words;

/// Why a call is refused, in a few words.
fn reason(why: Refusal) -> &'static str {
    match why {
        Refusal::Beyond => "beyond the size",
        Refusal::Unsettled => "the word is not settled",
        Refusal::Dark => "power is gone",
        Refusal::NoMemory => "no memory",
        Refusal::UnsoundRing(_) => "the ring is unsound",
        Refusal::NotOpen => "nothing waits",
        Refusal::NoSuchRecord => "no such record",
        Refusal::TooManyRecords => "30 other records wait already",
        Refusal::RingFull => "the ring has no room",
        Refusal::ColumnOrRow => "column or row above 65535",
        Refusal::Level => "level below -200.0 or above 50.0 dBm",
        Refusal::NameLength => "name of no bytes or of more than 232",
        Refusal::NameByte => "a byte of the name is not printed ASCII",
        _ => "not a refusal of this program",
    }
}

/// A level in dBm, with its tenth.
fn show_level<W: fmt::Write>(tenths: i16, f: &mut fmt::Formatter<W>) -> fmt::Result {
    let sign = if tenths < 0 { "-" } else { "" };
    let size = tenths.unsigned_abs();
    let whole = size / 10;
    let tenth = size % 10;
    write!(f, "{sign}{whole}.{tenth} dBm")
}

/// A tile by its place and its plan, and the first words of its unit. All of its samples have the level of the first.
fn show_tile<W: fmt::Write>(
    tile: &Tile,
    unit: &[u64; 32],
    f: &mut fmt::Formatter<W>,
) -> fmt::Result {
    let column = tile.column();
    let row = tile.row();
    let plan = tile.plan();
    write!(
        f,
        "the tile at column {column}, row {row} of plan {plan}, every sample at "
    )?;
    show_level(tile.level(0).unwrap_or(0), f)?;
    let [kind, first, second, third, levels, ..] = unit;
    write!(
        f,
        ", written as a unit of 256 bytes (words {kind}, {first}, {second}, {third}, {levels:#x}, ..)"
    )
}

/// A mast by its number and its name, and the first words of its unit.
fn show_mast<W: fmt::Write>(
    mast: &Mast,
    unit: &[u64; 32],
    f: &mut fmt::Formatter<W>,
) -> fmt::Result {
    let number = mast.number();
    let name = mast.text();
    let [kind, first, second, start, ..] = unit;
    write!(
        f,
        "mast {number} \"{name}\", written as a unit of 256 bytes (words {kind}, {first}, {second}, {start:#x}, ..)"
    )
}

/// What was done: the record with its number, and that it reads back.
fn show_done<W: fmt::Write>(done: &Done, f: &mut fmt::Formatter<W>) -> fmt::Result {
    let number = done.number;
    write!(f, "record {number} is ")?;
    match &done.trip.back {
        Joined::Tile(tile) => show_tile(tile, &done.trip.unit, f)?,
        Joined::Mast(mast) => show_mast(mast, &done.trip.unit, f)?,
    }
    write!(f, " and read back the same")
}

/// What was done, or the number of the refusal and why.
fn show_answer<W: fmt::Write>(answer: &Answer, f: &mut fmt::Formatter<W>) -> fmt::Result {
    let code = code(answer);
    match answer {
        Ok(done) => show_done(done, f),
        Err(Complaint::Refused(why)) => {
            let words = reason(*why);
            write!(f, "refused {code}: {words}")
        }
        Err(Complaint::Unknown) => write!(f, "refused {code}: not a line that I know"),
        Err(Complaint::TooLong) => write!(f, "refused {code}: more than 65536 bytes"),
    }
}

/// An answer, to be printed.
// Kept: an answer's own Display would have to stand in its crate, and these sentences are this program's alone.
#[derive(Clone, Copy)]
pub struct InWords<'a> {
    pub answer: &'a Answer,
}

impl fmt::Display for InWords<'_> {
    fn fmt<W: fmt::Write>(&self, f: &mut fmt::Formatter<W>) -> fmt::Result {
        show_answer(self.answer, f)
    }
}

/// A refusal, to be printed: its number, why, and the place where a ring is unsound.
// Kept: a refusal's own Display would have to stand in its crate, and the store refuses more than this program has sentences for.
#[derive(Clone, Copy)]
pub struct InShort {
    pub why: Refusal,
}

impl fmt::Display for InShort {
    fn fmt<W: fmt::Write>(&self, f: &mut fmt::Formatter<W>) -> fmt::Result {
        let code = self.why.number();
        let words = reason(self.why);
        write!(f, "refused {code}: {words}")?;
        if let Refusal::UnsoundRing(place) = self.why {
            write!(f, " at place {place}")?;
        }
        Ok(())
    }
}
