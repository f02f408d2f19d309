//! Rows of acts on a non-volatile memory.
ghost use Rattle.std.specs.Prelude.{◌+◌, ◌*◌, ◌^◌, ◌<◌, length};
ghost use Rattle.device.specs.Words.{nvm_rules};
ghost use Rattle.crash.specs.Acts.{RanOn};
ghost use Rattle.crash.specs.Rows.{storing, flushing, sealing, settling};

use device::nvm::Nvm;
use refusal::reason::Refusal;

/// Stores words from the word `first` on, the first one first.
pub(crate) fn store_words<N: Nvm>(nvm: &mut N, first: usize, words: &[u64]) -> Result<(), Refusal>
    requires { first + length words.now < 2 ^ 64 }
    ensures { RanOn nvm_rules (N.meaning nvm.old) (storing first words.now) result (N.meaning nvm.new) }
{
    for (i, word) in words.iter().enumerate() {
        nvm.store(first + i, *word)?;
    }
    Ok(())
}

/// Flushes `count` lines from the line `first` on.
pub(crate) fn flush_lines<N: Nvm>(nvm: &mut N, first: usize, count: usize) -> Result<(), Refusal>
    requires { first + count < 2 ^ 64 }
    ensures { RanOn nvm_rules (N.meaning nvm.old) (flushing first count) result (N.meaning nvm.new) }
{
    for line in first..first + count {
        nvm.flush(line)?;
    }
    Ok(())
}

/// Stores a word and makes it last.
pub fn seal<N: Nvm>(nvm: &mut N, word: usize, value: u64) -> Result<(), Refusal>
    ensures { RanOn nvm_rules (N.meaning nvm.old) (sealing word value) result (N.meaning nvm.new) }
{
    nvm.store(word, value)?;
    nvm.flush(word / 8)?;
    nvm.fence()
}

/// Settles the words of `units` units: flushes all their lines, and fences.
pub(crate) fn settle_units<N: Nvm>(nvm: &mut N, units: usize) -> Result<(), Refusal>
    requires { 4 * units < 2 ^ 64 }
    ensures { RanOn nvm_rules (N.meaning nvm.old) (settling units) result (N.meaning nvm.new) }
{
    flush_lines(nvm, 0, 4 * units)?;
    nvm.fence()
}
