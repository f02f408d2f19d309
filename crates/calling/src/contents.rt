//! What a mount asks of the contents of a memory.
ghost use Rattle.std.specs.Prelude.{◌≡◌, ◌+◌, ◌≤◌, false, Some, None, MatchResult};
ghost use Rattle.device.specs.Words.{words_of};
ghost use Rattle.ringlaws.specs.Layout.{head_of, tail_of, most_places};
ghost use Rattle.calls.specs.Plans.{mount_refusal};

use crate::ends::ring_ends;
use checkpointing::loads::Loads;
use device::nvm::Nvm;
use refusal::reason::Refusal;
use ring::walk::check;
use ringunits::header::{BLOCKS_WORD, GROUND_MARK, GROUND_WORD, PLACES_WORD};
use ringunits::places::Ring;

/// Why a memory with power and so many places is not mounted beside a disk of so many blocks: no ground mark, a wrong header, an
/// unsound ring, asked in this order. Else head and tail.
pub fn check_contents<N: Nvm>(nvm: &N, places: usize, blocks: usize) -> Result<Ring, Refusal>
    requires lit { (N.meaning nvm.now).dark ≡ false }
    requires size { (N.meaning nvm.now).size ≡ places + 1 }
    requires most { places ≤ most_places }
    ensures { MatchResult result (λ e. (mount_refusal places blocks (words_of (N.meaning nvm.now)) ≡ None) × (e.places ≡ places) × (e.head ≡ head_of (words_of (N.meaning nvm.now))) × (e.tail ≡ tail_of (words_of (N.meaning nvm.now)))) (λ e. mount_refusal places blocks (words_of (N.meaning nvm.now)) ≡ Some e) }
{
    let ring = ring_ends(nvm)?;
    let mark = nvm.load(GROUND_WORD)?;
    if mark != GROUND_MARK {
        return Err(Refusal::NoGroundMark);
    }
    let named_places = nvm.load(PLACES_WORD)?;
    let named_blocks = nvm.load(BLOCKS_WORD)?;
    if named_places != places as u64 || named_blocks != blocks as u64 {
        return Err(Refusal::BadHeader);
    }
    if ring.head >= places || ring.tail >= places {
        return Err(Refusal::BadHeader);
    }
    let source = Loads(nvm);
    check(&source, ring, blocks)?;
    Ok(ring)
}
