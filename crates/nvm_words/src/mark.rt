//! How far a word has come since its last store.
ghost use Rattle.std.specs.Prelude.{◌≡◌};
ghost use Rattle.nvm_words.specs.Marks.{is_marked};

/// Whether a word is settled, waits for a flush of its line, or is flushed and waits for a fence.
#[derive(Clone, Copy, PartialEq, Eq, Debug)]
pub enum Mark {
    Settled,
    Waiting,
    Flushed,
}

impl Mark {
    /// Whether the word waits or is flushed.
    pub fn is_unsettled(self) -> bool
        ensures { result ≡ is_marked self }
    {
        self != Mark::Settled
    }
}
