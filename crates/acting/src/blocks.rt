//! Rows of acts on a disk.
ghost use Rattle.std.specs.Prelude.{[], ◌∷◌, ◌++◌, replicate};
ghost use Rattle.device.specs.Sectors.{Write, Sync, disk_rules};
ghost use Rattle.crash.specs.Runs.{each_of};
ghost use Rattle.crash.specs.Acts.{RanOn};
ghost use Rattle.acting.specs.Rows.{zeroing_blocks};

use device::disk::Disk;
use refusal::reason::Refusal;

/// Writes the first `blocks` blocks with zeros, and syncs.
pub fn zero_blocks<D: Disk>(disk: &mut D, blocks: usize) -> Result<(), Refusal>
    ensures { RanOn disk_rules (D.meaning disk.old) (zeroing_blocks blocks) result (D.meaning disk.new) }
{
    write_zeros(disk, blocks)?;
    disk.sync()
}

/// Writes the first `blocks` blocks with zeros.
fn write_zeros<D: Disk>(disk: &mut D, blocks: usize) -> Result<(), Refusal>
    ensures { RanOn disk_rules (D.meaning disk.old) (each_of (λ b. Write b (replicate 512 0) ∷ []) blocks) result (D.meaning disk.new) }
{
    let zeros = [0u64; 512];
    for block in 0..blocks {
        disk.write(block, &zeros)?;
    }
    Ok(())
}
