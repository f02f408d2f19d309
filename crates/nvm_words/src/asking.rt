//! Questions, which change nothing.
ghost use Rattle.std.specs.Prelude.{◌≡◌, ℕ, ◌*◌, ◌<◌};
ghost use Rattle.device.specs.Devices.{refusal_of};
ghost use Rattle.device.specs.Words.{Store, Flush, nvm_rules, loads};
ghost use Rattle.simulated.specs.Lists.{member};
ghost use Rattle.nvm_words.specs.Meant.{meant, unsettled_lines, is_unsettled_line};
ghost use Rattle.nvm_words.specs.Acts.{verdict};
ghost use Rattle.nvm_words.specs.Looks.{present_at, settled_at, mark_at};

use crate::mark::Mark;
use crate::words::Words;
use refusal::reason::Refusal;

impl Words {
    /// The size in units.
    pub fn units(&self) -> usize
        ensures { result ≡ (meant self.now).size }
    {
        self.units
    }

    /// Whether power is gone.
    pub fn is_dark(&self) -> bool
        ensures { result ≡ (meant self.now).dark }
    {
        self.supply.is_dark()
    }

    /// How many more acts are performed.
    pub fn acts_left(&self) -> u64
        ensures { result ≡ self.now.supply.left }
    {
        self.supply.acts_left()
    }

    /// The lines that hold an unsettled word, and no other, the one that became so earliest first.
    pub fn unsettled_lines(&self) -> &[usize]
        ensures lines { result.now ≡ unsettled_lines self.now }
        ensures exact { (l : ℕ) → member l (unsettled_lines self.now) ≡ is_unsettled_line (meant self.now).piece l }
    {
        self.pending.as_slice()
    }

    /// Whether a line holds an unsettled word.
    pub fn holds_unsettled(&self, line: usize) -> bool
        requires { line < 4 * self.now.units }
        ensures { result ≡ member line (unsettled_lines self.now) }
    {
        self.pending.contains(line)
    }

    /// The present value of a word, for whoever is on the other side of the interface.
    pub fn load(&self, word: usize) -> Result<u64, Refusal>
        ensures { result ≡ loads (meant self.now) word }
    {
        if self.supply.is_dark() {
            return Err(Refusal::Dark);
        }
        self.present_at(word).ok_or(Refusal::Beyond)
    }

    /// The present value of a word, for tests and tools: in the dark too.
    pub fn present_at(&self, word: usize) -> Option<u64>
        ensures { result ≡ present_at (meant self.now) word }
    {
        self.cells.get(word).map(|cell| cell.present())
    }

    /// The settled value of a word: what it would come back as, if it came back old.
    pub fn settled_at(&self, word: usize) -> Option<u64>
        ensures { result ≡ settled_at (meant self.now) word }
    {
        self.cells.get(word).map(|cell| cell.settled())
    }

    /// The mark of a word.
    pub fn mark_at(&self, word: usize) -> Option<Mark>
        ensures { result ≡ mark_at (meant self.now) word }
    {
        self.cells.get(word).map(|cell| cell.mark())
    }

    /// Whether a store into a word is refused.
    pub(crate) fn check_store(&self, word: usize) -> Result<(), Refusal>
        ensures { result ≡ verdict (refusal_of nvm_rules (meant self.now) (Store word 0)) }
    {
        if self.supply.is_dark() {
            return Err(Refusal::Dark);
        }
        let cell = self.cells.get(word).ok_or(Refusal::Beyond)?;
        if cell.is_unsettled() {
            return Err(Refusal::Unsettled);
        }
        Ok(())
    }

    /// Whether a flush of a line is refused.
    pub(crate) fn check_flush(&self, line: usize) -> Result<(), Refusal>
        ensures { result ≡ verdict (refusal_of nvm_rules (meant self.now) (Flush line)) }
    {
        if self.supply.is_dark() {
            return Err(Refusal::Dark);
        }
        if line >= self.cells.len() / 8 {
            return Err(Refusal::Beyond);
        }
        Ok(())
    }
}
