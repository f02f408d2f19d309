//! Read, up to the unit of the record.
ghost use Rattle.std.specs.Prelude.{◌≡◌, ◌≢◌};
ghost use Rattle.ringlaws.specs.TxnInfo.{Transaction};
ghost use Rattle.ringlaws.specs.Newest.{setting_of};
ghost use Rattle.calls.specs.declared.state.State.{State};
ghost use Rattle.calls.specs.declared.state.State.TheVariants.{Unmounted};
ghost use Rattle.order.specs.Order.{InOrder};
ghost use Rattle.calling.specs.Seen.{seen};
ghost use Rattle.calling.specs.Reading.{unit_read};

use crate::ends::ring_ends;
use acting::both::check_power;
use checkpointing::read::read_unit;
use device::disk::Disk;
use device::nvm::Nvm;
use refusal::reason::Refusal;

/// The unit of a record in a mounted store: the open transaction's own if it sets the record, else the table's.
pub fn read_call<N: Nvm, D: Disk>(
    nvm: &N,
    disk: &D,
    own: Option<[u64; 32]>,
    number: u64,
    buf: &mut [u64; 512],
) -> Result<[u64; 32], Refusal>
    ensures { (state : State) (list : Transaction) → (state ≢ Unmounted) → InOrder (seen (N.Nvm.meaning nvm.now) (D.Disk.meaning disk.now) state list) → own ≡ setting_of list number → result ≡ unit_read (seen (N.Nvm.meaning nvm.now) (D.Disk.meaning disk.now) state list) number }
{
    check_power(nvm, disk)?;
    let blocks = disk.blocks();
    if number / 16 >= blocks as u64 {
        return Err(Refusal::NoSuchRecord);
    }
    if let Some(unit) = own {
        return Ok(unit);
    }
    let ring = ring_ends(nvm)?;
    read_unit(nvm, disk, ring, number as usize, buf)
}
