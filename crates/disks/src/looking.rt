//! Looking into a simulated disk, for tests and tools.
ghost use Rattle.std.specs.Prelude.{◌≡◌};
ghost use Rattle.disks.specs.State.{disk_state, present_at, settled_at, waits_at};

use crate::contents::Contents;

impl Contents {
    /// The present value of a word.
    pub fn present(&self, word: usize) -> Option<u64>
        ensures { result ≡ present_at (disk_state self.now) word }
    {
        self.present.get(word).copied()
    }

    /// The settled value of a word.
    pub fn settled(&self, word: usize) -> Option<u64>
        ensures { result ≡ settled_at (disk_state self.now) word }
    {
        if *self.waiting.get(word / 64)? {
            self.settled.get(word).copied()
        } else {
            self.present.get(word).copied()
        }
    }

    /// Whether a sector waits.
    pub fn waits(&self, sector: usize) -> Option<bool>
        ensures { result ≡ waits_at (disk_state self.now) sector }
    {
        self.waiting.get(sector).copied()
    }

    /// How many more acts are performed.
    pub fn acts_left(&self) -> u64
        ensures { result ≡ (disk_state self.now).left }
    {
        self.supply.acts_left()
    }
}
