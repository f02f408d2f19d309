//! A checkpoint of both devices.
ghost use Rattle.std.specs.Prelude.{◌≡◌, List, IfOk, MatchResult};
ghost use Rattle.device.specs.Words.{words_of};
ghost use Rattle.device.specs.Sectors.{sectors_of};
ghost use Rattle.crash.specs.Pair.{both, RanPair};
ghost use Rattle.ringlaws.specs.Layout.{tail_of};
ghost use Rattle.ringlaws.specs.TxnInfo.{Transaction};
ghost use Rattle.calls.specs.Acts.{checkpoint_acts, named_blocks};
ghost use Rattle.checkpointing.specs.Ready.{Fit, Ready};

use crate::blocks::write_homes;
use crate::gather::gather;
use crate::loads::Loads;
use crate::scratch::Scratch;
use acting::both::check_power;
use acting::memory::seal;
use device::disk::Disk;
use device::nvm::Nvm;
use refusal::reason::Refusal;
use ringunits::header::{HEAD_WORD, MOST_BLOCKS};
use ringunits::places::Ring;

/// Refuses devices without power or too small, and a head or tail that is no place.
fn check_fit<N: Nvm, D: Disk>(nvm: &N, disk: &D, ring: Ring, blocks: usize) -> Result<(), Refusal>
    ensures { MatchResult result (λ _. Fit ring.places blocks (N.Nvm.meaning nvm.now) (D.Disk.meaning disk.now) ring.head ring.tail) (λ _. Fit ring.places blocks (N.Nvm.meaning nvm.now) (D.Disk.meaning disk.now) ring.head ring.tail → ⊥) }
{
    check_power(nvm, disk)?;
    if !ring.is_valid() || blocks > MOST_BLOCKS {
        return Err(Refusal::Beyond);
    }
    if nvm.units() <= ring.places || disk.blocks() < blocks {
        return Err(Refusal::Beyond);
    }
    Ok(())
}

/// Writes the homes that the ring names, and moves the head up to the tail. Answers the number of blocks written; an empty ring
/// needs no act.
pub fn checkpoint_devices<N: Nvm, D: Disk>(
    nvm: &mut N,
    disk: &mut D,
    ring: Ring,
    blocks: usize,
    scratch: &mut Scratch,
) -> Result<usize, Refusal>
    ensures ran { (ts : List Transaction) → Ready ring.places blocks (N.Nvm.meaning nvm.old) (D.Disk.meaning disk.old) ring.head ring.tail ts → tail_of (words_of (N.Nvm.meaning nvm.old)) ≡ ring.tail → RanPair (both (N.Nvm.meaning nvm.old) (D.Disk.meaning disk.old)) (checkpoint_acts blocks (words_of (N.Nvm.meaning nvm.old)) ts (sectors_of (D.Disk.meaning disk.old))) result (both (N.Nvm.meaning nvm.new) (D.Disk.meaning disk.new)) }
    ensures counted { (ts : List Transaction) → Ready ring.places blocks (N.Nvm.meaning nvm.old) (D.Disk.meaning disk.old) ring.head ring.tail ts → IfOk result (λ k. k ≡ named_blocks blocks ts) }
{
    check_fit(nvm, disk, ring, blocks)?;
    let source = Loads(nvm);
    gather(&source, ring, blocks, &mut scratch.rows)?;
    if scratch.rows.is_empty() {
        return Ok(0);
    }
    let written = write_homes(nvm, disk, &scratch.rows, blocks, &mut scratch.block)?;
    seal(nvm, HEAD_WORD, ring.tail as u64)?;
    Ok(written)
}
