//! Acts: each is refused, turns the device dark, or is performed.
ghost use Rattle.std.specs.Prelude.{◌≡◌, is_ok, if◌then◌else◌};
ghost use Rattle.device.specs.Words.{Store, Flush, Fence, nvm_rules, nvm_makes};
ghost use Rattle.simulated.specs.Power.{spend_answer, spent};
ghost use Rattle.simulated.specs.Natures.{answers, becomes};
ghost use Rattle.nvm_words.specs.Meant.{simulated_nvm, unsettled_lines, Became};
ghost use Rattle.nvm_words.specs.Acts.{Admitted, fenced_lines};

use crate::words::Words;
use refusal::reason::Refusal;

impl Words {
    /// Spends one act, or turns dark if none is left.
    fn spend(&mut self) -> Result<(), Refusal>
        ensures answer { result ≡ spend_answer self.old.supply }
        ensures after { Became (spent self.old.supply) (λ _ c. c) (unsettled_lines self.old) self.old self.new }
    {
        self.supply.spend()
    }

    /// Admits a store into a word, and spends the act on it.
    pub fn admit_store(&mut self, word: usize) -> Result<(), Refusal>
        ensures { Admitted (Store word 0) self.old result self.new }
    {
        self.check_store(word)?;
        self.spend()
    }

    /// Admits a flush of a line, and spends the act on it.
    fn admit_flush(&mut self, line: usize) -> Result<(), Refusal>
        ensures { Admitted (Flush line) self.old result self.new }
    {
        self.check_flush(line)?;
        self.spend()
    }

    /// Admits a fence, and spends the act on it.
    fn admit_fence(&mut self) -> Result<(), Refusal>
        ensures { Admitted Fence self.old result self.new }
    {
        self.spend()
    }

    /// Turns the waiting words of a line flushed, and settles nothing.
    pub fn flush(&mut self, line: usize) -> Result<(), Refusal>
        ensures answer { result ≡ answers nvm_rules (simulated_nvm self.old) (Flush line) }
        ensures state { simulated_nvm self.new ≡ becomes nvm_rules (nvm_makes (Flush line)) (simulated_nvm self.old) (Flush line) }
        ensures lines { unsettled_lines self.new ≡ unsettled_lines self.old }
    {
        self.admit_flush(line)?;
        self.flush_line(line);
        Ok(())
    }

    /// Settles the flushed words, and no other.
    pub fn fence(&mut self) -> Result<(), Refusal>
        ensures answer { result ≡ answers nvm_rules (simulated_nvm self.old) Fence }
        ensures state { simulated_nvm self.new ≡ becomes nvm_rules (nvm_makes Fence) (simulated_nvm self.old) Fence }
        ensures lines { unsettled_lines self.new ≡ (if is_ok result then fenced_lines self.old else unsettled_lines self.old) }
    {
        self.admit_fence()?;
        self.fence_lines();
        Ok(())
    }
}
