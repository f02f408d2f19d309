//! What the buffered memory does, held to the contract of every NVM.
ghost use Rattle.std.specs.Prelude.{◌≡◌, ◌/◌, false, vec_len, slice_index};
ghost use Rattle.odd_nvm.specs.Buffers.{buffered_meaning, is_held};
ghost use Rattle.odd_nvm.specs.Buffered.{fits, beyond};

use crate::devices::{BufferedNvm, Held};
use device::comeback::Comeback;
use device::nvm::Nvm;
use refusal::reason::Refusal;

impl BufferedNvm {
    /// A memory of the whole units in a list, all settled.
    pub fn new(mut words: Vec<u64>) -> BufferedNvm
        ensures { (buffered_meaning result).size ≡ vec_len words / 32 }
    {
        words.truncate(words.len() / 32 * 32);
        BufferedNvm {
            words,
            buffer: None,
        }
    }

    /// Whether a word is unsettled.
    fn holds(&self, word: usize) -> bool
        ensures { result ≡ is_held self.now.buffer word }
    {
        self.buffer.is_some_and(|held| held.word == word)
    }
}

impl Nvm for BufferedNvm {
    ghost meaning = { buffered_meaning };

    ghost fits = { λ n. fits n };

    ghost ends = { λ n w far. beyond n w far };

    fn units(&self) -> usize {
        self.words.len() / 32
    }

    fn is_dark(&self) -> bool {
        false
    }

    fn load(&self, word: usize) -> Result<u64, Refusal> {
        self.words.get(word).copied().ok_or(Refusal::Beyond)
    }

    fn store(&mut self, word: usize, value: u64) -> Result<(), Refusal> {
        let old = self.load(word)?;
        if self.holds(word) {
            return Err(Refusal::Unsettled);
        }
        self.buffer = Some(Held { word, old });
        self.words[word] = value;
        Ok(())
    }

    fn flush(&mut self, line: usize) -> Result<(), Refusal> {
        if line >= self.words.len() / 8 {
            return Err(Refusal::Beyond);
        }
        self.buffer = self.buffer.filter(|held| held.word / 8 != line);
        Ok(())
    }

    fn fence(&mut self) -> Result<(), Refusal> {
        Ok(())
    }

    fn restart(&mut self, _how: &Comeback, _acts: u64) {
        if let Some(Held { word, old }) = self.buffer.take() {
            self.words[word] = old;
        }
    }
}
