//! The acts of a format.
ghost use Rattle.std.specs.Prelude.{◌≤◌};
ghost use Rattle.device.specs.Words.{nvm_rules};
ghost use Rattle.crash.specs.Acts.{RanOn};
ghost use Rattle.crash.specs.Pair.{both, RanPair};
ghost use Rattle.ringlaws.specs.Layout.{most_places};
ghost use Rattle.calls.specs.Acts.{format_acts};
ghost use Rattle.acting.specs.Rows.{heading_row};

use crate::blocks::zero_blocks;
use crate::both::settle_with;
use crate::memory::{flush_lines, seal, store_words};
use device::disk::Disk;
use device::nvm::Nvm;
use refusal::reason::Refusal;
pub use ringunits::header::{GROUND_MARK, GROUND_WORD};

/// Stores words 1 to 31 of unit 0 and makes them last.
fn store_header<N: Nvm>(nvm: &mut N, places: usize, blocks: usize) -> Result<(), Refusal>
    ensures { RanOn nvm_rules (N.meaning nvm.old) (heading_row places blocks) result (N.meaning nvm.new) }
{
    let mut words = [0u64; 31];
    words[0] = places as u64;
    words[1] = blocks as u64;
    store_words(nvm, 1, &words)?;
    flush_lines(nvm, 0, 4)?;
    nvm.fence()
}

/// Formats a memory of `places` + 1 units and a disk of `blocks` blocks: settles everything, takes the ground mark away, zeroes the
/// blocks, stores the header, and sets the ground mark.
pub fn format_devices<N: Nvm, D: Disk>(
    nvm: &mut N,
    disk: &mut D,
    places: usize,
    blocks: usize,
) -> Result<(), Refusal>
    requires { places ≤ most_places }
    ensures { RanPair (both (N.Nvm.meaning nvm.old) (D.Disk.meaning disk.old)) (format_acts places blocks) result (both (N.Nvm.meaning nvm.new) (D.Disk.meaning disk.new)) }
{
    settle_with(nvm, disk, places + 1)?;
    seal(nvm, GROUND_WORD, 0)?;
    zero_blocks(disk, blocks)?;
    store_header(nvm, places, blocks)?;
    seal(nvm, GROUND_WORD, GROUND_MARK)
}
