//! A non-volatile memory, as all code above it sees it.
ghost use Rattle.std.specs.Prelude.{◌≡◌, ℕ, ◌*◌, ◌^◌, ◌<◌, ◌≤◌, false};
ghost use Rattle.device.specs.declared.comeback.Comeback.{Comeback};
ghost use Rattle.device.specs.Pieces.{is_unsettled};
ghost use Rattle.device.specs.Devices.{Acted, Restarted};
ghost use Rattle.device.specs.Words.{NvmMeaning, Store, Flush, Fence, nvm_rules, loads};

use crate::comeback::Comeback;
use refusal::reason::Refusal;

/// Words of 64 bits that can be stored, flushed by lines of 8 and settled by a fence; its size counts units of 32 words.
pub trait Nvm {
    // What this memory means: its size, whether it is dark, and each of its words.
    ghost meaning: { Self → NvmMeaning };

    // What this memory promises besides of a restart with these arguments: a simulated one that it comes back as asked, a real one nothing.
    ghost comes: { Self → Comeback → ℕ → Self → Type 0 } = { λ _ _ _ _. Unit {0} };

    /// The size in units. It never changes.
    fn units(&self) -> usize
        ensures { result ≡ (meaning self.now).size };

    /// Whether power is gone.
    fn is_dark(&self) -> bool
        ensures { result ≡ (meaning self.now).dark };

    /// The present value of a word.
    fn load(&self, word: usize) -> Result<u64, Refusal>
        ensures { result ≡ loads (meaning self.now) word };

    /// Gives a word a new present value and makes it waiting.
    fn store(&mut self, word: usize, value: u64) -> Result<(), Refusal>
        ensures { Acted nvm_rules (meaning self.old) (Store word value) result (meaning self.new) };

    /// Turns the waiting words of a line flushed.
    fn flush(&mut self, line: usize) -> Result<(), Refusal>
        ensures { Acted nvm_rules (meaning self.old) (Flush line) result (meaning self.new) };

    /// Settles every flushed word.
    fn fence(&mut self) -> Result<(), Refusal>
        ensures { Acted nvm_rules (meaning self.old) Fence result (meaning self.new) };

    /// Power returns. A simulated memory takes from `how` what its unsettled words come back as, and goes dark at the first act
    /// after `acts` performed ones; a real one looks at neither.
    fn restart(&mut self, how: &Comeback, acts: u64)
        ensures restarted { Restarted (meaning self.old) (meaning self.new) }
        ensures asked { comes self.old how.now acts self.new };

    // The number of a word fits a `usize`.
    ghost fits: { (s : Self) → 32 * (meaning s).size < 2 ^ 64 };

    // There is nothing to settle beyond the size.
    ghost ends: { (s : Self) (w : ℕ) → 32 * (meaning s).size ≤ w → is_unsettled ((meaning s).piece w) ≡ false };
}
