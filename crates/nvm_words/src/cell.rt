//! A word as it stands in a simulated memory.
ghost use Rattle.std.specs.Prelude.{◌≡◌, cond};
ghost use Rattle.device.specs.Pieces.{settled, settled_value, present_value, is_unsettled};
ghost use Rattle.device.specs.Words.{flushed_word, fenced_word};
ghost use Rattle.nvm_words.specs.Cells.{cell_word};
ghost use Rattle.nvm_words.specs.Marks.{word_of, mark_of};

use crate::mark::Mark;

/// A word: settled at a value, or waiting or flushed, with its present value and its settled one.
#[derive(Clone, Copy)]
pub(crate) enum Cell {
    Settled(u64),
    // The present value comes first, where a settled word has its value, so that a load asks for no mark.
    Waiting { new: u64, old: u64 },
    Flushed { new: u64, old: u64 },
}

impl Cell {
    /// A word with a settled value, a present one and a mark. One that is marked settled has its present value.
    pub(crate) fn new(old: u64, new: u64, mark: Mark) -> Cell
        ensures { cell_word result ≡ word_of old new mark }
    {
        match mark {
            Mark::Settled => Cell::Settled(new),
            Mark::Waiting => Cell::Waiting { old, new },
            Mark::Flushed => Cell::Flushed { old, new },
        }
    }

    /// How far the word has come since its last store.
    pub(crate) fn mark(self) -> Mark
        ensures { result ≡ mark_of (cell_word self) }
    {
        match self {
            Cell::Settled(_) => Mark::Settled,
            Cell::Waiting { .. } => Mark::Waiting,
            Cell::Flushed { .. } => Mark::Flushed,
        }
    }

    /// Whether the word waits or is flushed.
    pub(crate) fn is_unsettled(self) -> bool
        ensures { result ≡ is_unsettled (cell_word self) }
    {
        self.mark().is_unsettled()
    }

    /// The value that it would come back at, if it came back old.
    pub(crate) fn settled(self) -> u64
        ensures { result ≡ settled_value (cell_word self) }
    {
        match self {
            Cell::Settled(value) => value,
            Cell::Waiting { old, .. } | Cell::Flushed { old, .. } => old,
        }
    }

    /// The value that a load answers.
    pub(crate) fn present(self) -> u64
        ensures { result ≡ present_value (cell_word self) }
    {
        match self {
            Cell::Settled(value) => value,
            Cell::Waiting { new, .. } | Cell::Flushed { new, .. } => new,
        }
    }

    /// A flush of the word's line turns it flushed, if it waits.
    pub(crate) fn flush(&mut self)
        ensures { cell_word self.new ≡ flushed_word (cell_word self.old) }
    {
        if let Cell::Waiting { old, new } = *self {
            *self = Cell::Flushed { old, new };
        }
    }

    /// A fence settles the word, if it is flushed.
    pub(crate) fn fence(&mut self)
        ensures { cell_word self.new ≡ fenced_word (cell_word self.old) }
    {
        if let Cell::Flushed { new, .. } = *self {
            *self = Cell::Settled(new);
        }
    }

    /// The word settles, at its present or at its settled value.
    pub(crate) fn come_back(&mut self, new: bool)
        ensures { cell_word self.new ≡ settled (cond new (present_value (cell_word self.old)) (settled_value (cell_word self.old))) }
    {
        *self = Cell::Settled(if new { self.present() } else { self.settled() });
    }
}
