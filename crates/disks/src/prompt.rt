//! The prompt disk: it settles every sector at every write.
ghost use Rattle.std.proofs.Common.{refl, inr};
ghost use Rattle.disks.specs.State.{prompt};

use crate::contents::Contents;
use crate::settling::Settling;
use crate::simulation::SimulatedDisk;
use refusal::reason::Refusal;

/// Every sector is settled at every write, the ones just written included.
pub struct AtWrites;

impl Settling for AtWrites {
    ghost makes = { prompt };

    ghost settles = { λ a s c. inr refl };

    ghost syncs = { refl };

    fn write(contents: &mut Contents, block: usize, buf: &[u64; 512]) -> Result<(), Refusal> {
        contents.write(block, buf)?;
        contents.settle();
        Ok(())
    }
}

/// A simulated disk that settles every sector at every write, the ones just written included.
pub type PromptDisk = SimulatedDisk<AtWrites>;
