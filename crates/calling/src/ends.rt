//! The ring of a memory: how many places it has, and where it begins and ends.
ghost use Rattle.std.specs.Prelude.{◌≡◌, ◌-◌, ◌≤◌, false, MatchResult};
ghost use Rattle.device.specs.Words.{words_of};
ghost use Rattle.ringlaws.specs.Layout.{head_of, tail_of};

use device::nvm::Nvm;
use refusal::reason::Refusal;
use ringunits::header::{HEAD_WORD, TAIL_WORD};
use ringunits::places::Ring;

/// Loads head and tail. A memory with power and a unit 0 has them.
pub fn ring_ends<N: Nvm>(nvm: &N) -> Result<Ring, Refusal>
    ensures { MatchResult result (λ e. (e.places ≡ (N.meaning nvm.now).size - 1) × (e.head ≡ head_of (words_of (N.meaning nvm.now))) × (e.tail ≡ tail_of (words_of (N.meaning nvm.now)))) (λ _. (N.meaning nvm.now).dark ≡ false → 1 ≤ (N.meaning nvm.now).size → ⊥) }
{
    let units = nvm.units();
    if units == 0 {
        return Err(Refusal::Beyond);
    }
    let head = nvm.load(HEAD_WORD)?;
    let tail = nvm.load(TAIL_WORD)?;
    Ok(Ring {
        places: units - 1,
        head: head as usize,
        tail: tail as usize,
    })
}
