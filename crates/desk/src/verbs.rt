//! The lines about the ring and about the memory.
use commands::command::Contents;
use lines::fields::word_at;
use lines::numeral::number;
use lines::split::{field, has_fields};

/// What a line about the ring asks for.
#[derive(Clone, Copy)]
pub enum RingVerb {
    /// Commit what waits.
    Commit,
    /// Show the ring place by place.
    Show,
    /// Walk the ring back, and show what it spells.
    Walk,
    /// Look a record up.
    Find(u64),
    /// Set a word of the ring's image.
    Damage { word: u64, value: u64 },
}

/// What a line about the memory asks for.
#[derive(Clone, Copy)]
pub enum MemoryVerb {
    /// Store a value into a word.
    Store { word: u64, value: u64 },
    /// Flush a line.
    Flush(u64),
    /// Settle what is flushed.
    Fence,
    /// Show a word.
    Word(u64),
    /// Give the memory power for so many acts; unsettled words come back new, or old.
    Restart { back: Contents, acts: u64 },
}

/// What a line asks for.
#[derive(Clone, Copy)]
pub enum Verb {
    Ring(RingVerb),
    Memory(MemoryVerb),
}

/// A line of one field.
fn alone(verb: &[u8]) -> Option<Verb> {
    match verb {
        b"commit" => Some(Verb::Ring(RingVerb::Commit)),
        b"ring" => Some(Verb::Ring(RingVerb::Show)),
        b"walk" => Some(Verb::Ring(RingVerb::Walk)),
        b"fence" => Some(Verb::Memory(MemoryVerb::Fence)),
        _ => None,
    }
}

/// A line of a verb and a number.
fn with_number(verb: &[u8], n: u64) -> Option<Verb> {
    match verb {
        b"find" => Some(Verb::Ring(RingVerb::Find(n))),
        b"flush" => Some(Verb::Memory(MemoryVerb::Flush(n))),
        b"word" => Some(Verb::Memory(MemoryVerb::Word(n))),
        _ => None,
    }
}

/// A line of a verb, a field and a number.
fn with_two(verb: &[u8], first: &[u8], value: u64) -> Option<Verb> {
    match verb {
        b"restart" => {
            let back = Contents::try_from(first).ok()?;
            Some(Verb::Memory(MemoryVerb::Restart { back, acts: value }))
        }
        b"damage" => {
            let word = number(first)?;
            Some(Verb::Ring(RingVerb::Damage { word, value }))
        }
        b"store" => {
            let word = number(first)?;
            Some(Verb::Memory(MemoryVerb::Store { word, value }))
        }
        _ => None,
    }
}

/// What a line asks of the ring or of the memory, or none where it has another form.
pub fn verb_in(line: &[u8]) -> Option<Verb> {
    let verb = field(line, 0)?;
    if has_fields(line, 1) {
        return alone(verb);
    }
    if has_fields(line, 2) {
        return with_number(verb, word_at(line, 1)?);
    }
    if has_fields(line, 3) {
        return with_two(verb, field(line, 1)?, word_at(line, 2)?);
    }
    None
}
