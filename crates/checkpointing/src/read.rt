//! A record looked up.
ghost use Rattle.std.specs.Prelude.{◌≡◌, ℕ, ◌<◌, List, Ok};
ghost use Rattle.device.specs.Sectors.{sectors_of};
ghost use Rattle.ringlaws.specs.Layout.{unit_at, home_block};
ghost use Rattle.ringlaws.specs.TxnInfo.{Transaction};
ghost use Rattle.ringunits.specs.Images.{contents_of};
ghost use Rattle.calls.specs.Table.{table};
ghost use Rattle.checkpointing.specs.Ready.{Ready};

use crate::loads::Loads;
use device::disk::Disk;
use device::nvm::Nvm;
use refusal::reason::Refusal;
use ring::find::find;
use ring::unit::load_unit;
use ringunits::places::{Ring, home_of};

/// The 32 words of a unit of a block.
fn unit_of(block: &[u64; 512], unit: usize) -> [u64; 32]
    requires { unit < 16 }
    ensures { result ≡ unit_at (contents_of block.now) unit }
{
    let mut words = [0; 32];
    words.copy_from_slice(&block[32 * unit..32 * unit + 32]);
    words
}

/// A record's unit: from its newest place in the ring, or where no transaction names it, from its home.
pub fn read_unit<N: Nvm, D: Disk>(
    nvm: &N,
    disk: &D,
    ring: Ring,
    record_number: usize,
    buf: &mut [u64; 512],
) -> Result<[u64; 32], Refusal>
    ensures { (B : ℕ) (ts : List Transaction) → Ready ring.places B (N.Nvm.meaning nvm.now) (D.Disk.meaning disk.now) ring.head ring.tail ts → home_block record_number < B → result ≡ Ok (table ts (sectors_of (D.Disk.meaning disk.now)) record_number) }
{
    let source = Loads(nvm);
    if let Some(place) = find(&source, ring, record_number as u64)? {
        return load_unit(&source, place + 1);
    }
    let home = home_of(record_number);
    disk.read(home.block, buf)?;
    Ok(unit_of(buf, record_number % 16))
}
