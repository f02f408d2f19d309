//! A disk, as all code above it sees it.
ghost use Rattle.std.specs.Prelude.{◌≡◌, ℕ, ◌*◌, ◌^◌, ◌<◌, ◌≤◌, false};
ghost use Rattle.device.specs.declared.comeback.Comeback.{Comeback};
ghost use Rattle.device.specs.Pieces.{is_unsettled};
ghost use Rattle.device.specs.Devices.{Acted, Restarted};
ghost use Rattle.device.specs.Sectors.{DiskMeaning, Write, Sync, disk_rules, Reads};

use crate::comeback::Comeback;
use refusal::reason::Refusal;

/// Blocks of 512 words that are written as eight sectors and settled by a sync; its size counts blocks.
pub trait Disk {
    // What this disk means: its size, whether it is dark, and each of its sectors.
    ghost meaning: { Self → DiskMeaning };

    // What this disk promises besides of a restart with these arguments: a simulated one that it comes back as asked, a real one nothing.
    ghost comes: { Self → Comeback → ℕ → Self → Type 0 } = { λ _ _ _ _. Unit {0} };

    /// The size in blocks. It never changes.
    fn blocks(&self) -> usize
        ensures { result ≡ (meaning self.now).size };

    /// Whether power is gone.
    fn is_dark(&self) -> bool
        ensures { result ≡ (meaning self.now).dark };

    /// Copies the present contents of a block into the buffer.
    fn read(&self, block: usize, buf: &mut [u64; 512]) -> Result<(), Refusal>
        ensures { Reads (meaning self.now) block buf.old result buf.new };

    /// Gives the eight sectors of a block new present contents and makes them wait.
    fn write(&mut self, block: usize, buf: &[u64; 512]) -> Result<(), Refusal>
        ensures { Acted disk_rules (meaning self.old) (Write block buf.now) result (meaning self.new) };

    /// Settles all sectors.
    fn sync(&mut self) -> Result<(), Refusal>
        ensures { Acted disk_rules (meaning self.old) Sync result (meaning self.new) };

    /// Power returns. A simulated disk takes from `how` what its waiting sectors come back as, and goes dark at the first act
    /// after `acts` performed ones; a real one looks at neither.
    fn restart(&mut self, how: &Comeback, acts: u64)
        ensures restarted { Restarted (meaning self.old) (meaning self.new) }
        ensures asked { comes self.old how.now acts self.new };

    // The number of a word fits a `usize`.
    ghost fits: { (s : Self) → 512 * (meaning s).size < 2 ^ 64 };

    // There is nothing to settle beyond the size.
    ghost ends: { (s : Self) (i : ℕ) → 8 * (meaning s).size ≤ i → is_unsettled ((meaning s).piece i) ≡ false };
}
