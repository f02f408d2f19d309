//! Where the words of a ring come from.
ghost use Rattle.std.specs.Prelude.{◌≡◌, ℕ, Result};
ghost use Rattle.refusal.specs.declared.reason.Refusal.{Refusal};
ghost use Rattle.ring.specs.Sources.{word_of};

use refusal::reason::Refusal;

/// A read-only source of words: the loads of a memory, or a captured image of one. It may refuse a word.
pub trait Source {
    // What it answers for each word number.
    ghost reads: { Self → ℕ → Result ℕ Refusal };

    /// The word with this number.
    fn word(&self, number: usize) -> Result<u64, Refusal>
        ensures { result ≡ reads self.now number };
}

/// Words in a slice, which refuse what lies past their end.
#[derive(Clone, Copy)]
pub struct Words<'a>(pub &'a [u64]);

impl Source for Words<'_> {
    ghost reads = { λ s n. word_of s.0.now n };

    fn word(&self, number: usize) -> Result<u64, Refusal> {
        self.0.get(number).copied().ok_or(Refusal::Beyond)
    }
}
