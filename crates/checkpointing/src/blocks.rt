//! The blocks of a checkpoint, written one after another.
ghost use Rattle.std.specs.Prelude.{◌≡◌, ◌<◌, ◌≤◌, false, [], ◌∷◌, ◌++◌, IfOk};
ghost use Rattle.device.specs.Devices.{Acted};
ghost use Rattle.device.specs.Words.{words_of};
ghost use Rattle.device.specs.Sectors.{Write, Sync, disk_rules, sectors_of};
ghost use Rattle.crash.specs.Acts.{RanOn};
ghost use Rattle.calls.specs.Table.{table_block};
ghost use Rattle.checkpointing.specs.Rows.{place_in, is_home, LieIn, row_units, writing_blocks, chosen_below};

use crate::lay::lay_block;
use crate::loads::Loads;
use crate::rows::Rows;
use device::disk::Disk;
use device::nvm::Nvm;
use refusal::reason::Refusal;

/// Writes a block as the table has it.
fn write_block<N: Nvm, D: Disk>(
    nvm: &N,
    disk: &mut D,
    rows: &Rows,
    block: usize,
    buf: &mut [u64; 512],
) -> Result<(), Refusal>
    requires lit { ((N.Nvm.meaning nvm.now).dark ≡ false) × ((D.Disk.meaning disk.old).dark ≡ false) }
    requires within { LieIn (N.Nvm.meaning nvm.now).size rows.now }
    requires inside { (block < (D.Disk.meaning disk.old).size) × (block < 4096) }
    ensures { Acted disk_rules (D.Disk.meaning disk.old) (Write block (table_block (row_units (words_of (N.Nvm.meaning nvm.now)) (place_in rows.now) (sectors_of (D.Disk.meaning disk.old))) block)) result (D.Disk.meaning disk.new) }
{
    disk.read(block, buf)?;
    let source = Loads(nvm);
    lay_block(&source, rows, block, buf)?;
    disk.write(block, buf)
}

/// Writes each block below `blocks` that is home to a gathered record, and syncs. Answers the number of blocks.
pub fn write_homes<N: Nvm, D: Disk>(
    nvm: &N,
    disk: &mut D,
    rows: &Rows,
    blocks: usize,
    buf: &mut [u64; 512],
) -> Result<usize, Refusal>
    requires lit { ((N.Nvm.meaning nvm.now).dark ≡ false) × ((D.Disk.meaning disk.old).dark ≡ false) }
    requires within { LieIn (N.Nvm.meaning nvm.now).size rows.now }
    requires inside { (blocks ≤ (D.Disk.meaning disk.old).size) × (blocks ≤ 4096) }
    ensures ran { RanOn disk_rules (D.Disk.meaning disk.old) (writing_blocks (is_home rows.now) (table_block (row_units (words_of (N.Nvm.meaning nvm.now)) (place_in rows.now) (sectors_of (D.Disk.meaning disk.old)))) blocks ++ Sync ∷ []) result (D.Disk.meaning disk.new) }
    ensures counted { IfOk result (λ k. k ≡ chosen_below (is_home rows.now) blocks) }
{
    let mut from = 0;
    let mut written = 0;
    while let Some(block) = rows.next_block(from, blocks) {
        write_block(nvm, disk, rows, block, buf)?;
        written += 1;
        from = block + 1;
    }
    disk.sync()?;
    Ok(written)
}
