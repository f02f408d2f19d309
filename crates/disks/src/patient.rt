//! The patient disk: it settles sectors at syncs only.
ghost use Rattle.std.proofs.Common.{refl, inl};
ghost use Rattle.disks.specs.State.{patient};

use crate::contents::Contents;
use crate::settling::Settling;
use crate::simulation::SimulatedDisk;
use refusal::reason::Refusal;

/// Sectors are settled at syncs only.
pub struct AtSyncs;

impl Settling for AtSyncs {
    ghost makes = { patient };

    ghost settles = { λ a s c. inl refl };

    ghost syncs = { refl };

    fn write(contents: &mut Contents, block: usize, buf: &[u64; 512]) -> Result<(), Refusal> {
        contents.write(block, buf)
    }
}

/// A simulated disk that settles sectors at syncs only.
pub type PatientDisk = SimulatedDisk<AtSyncs>;
