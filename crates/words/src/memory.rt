//! A word of a memory in words.
use nvm_words::mark::Mark;
use std::fmt;

/// A mark, to be printed.
// Kept: a mark's own Display would have to stand in its crate, and these words are this program's alone.
#[derive(Clone, Copy)]
pub struct Marked {
    pub mark: Mark,
}

impl fmt::Display for Marked {
    fn fmt<W: fmt::Write>(&self, f: &mut fmt::Formatter<W>) -> fmt::Result {
        match self.mark {
            Mark::Settled => f.write_str("settled"),
            Mark::Waiting => f.write_str("waiting"),
            Mark::Flushed => f.write_str("flushed"),
        }
    }
}
