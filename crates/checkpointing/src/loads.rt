//! A non-volatile memory as a source of words.
ghost use Rattle.device.specs.Words.{loads};

use device::nvm::Nvm;
use refusal::reason::Refusal;
use ring::source::Source;

/// The loads of a memory.
#[derive(Clone, Copy)]
pub struct Loads<'a, N>(pub &'a N);

impl<N: Nvm> Source for Loads<'_, N> {
    ghost reads = { λ s w. loads (N.Nvm.meaning s.0.now) w };

    fn word(&self, number: usize) -> Result<u64, Refusal> {
        self.0.load(number)
    }
}
