//! Mount.
ghost use Rattle.ringlaws.specs.TxnInfo.{Transaction};
ghost use Rattle.calls.specs.declared.state.State.TheVariants.{Unmounted, Idle};
ghost use Rattle.calls.specs.declared.call.Call.TheVariants.{Mount};
ghost use Rattle.calls.specs.Steps.{Step};
ghost use Rattle.order.specs.Order.{kind_of};
ghost use Rattle.calling.specs.Seen.{seen, blocks_answer, if_done};

use acting::both::{check_power, settle_both};
use calling::contents::check_contents;
use calling::sizes::fit_sizes;
use checkpointing::devices::checkpoint_devices;
use checkpointing::scratch::Scratch;
use device::disk::Disk;
use device::nvm::Nvm;
use kinds::kind::RecordKind;
use refusal::reason::Refusal;

/// Mounts the devices of an unmounted store of records of the kind `K`: settles everything, looks at the contents, and writes the
/// homes that the ring names. Answers the number of blocks written.
pub fn mount_call<K: RecordKind, N: Nvm, D: Disk>(
    nvm: &mut N,
    disk: &mut D,
    scratch: &mut Scratch,
) -> Result<usize, Refusal>
    ensures { (list : Transaction) → Step (kind_of K.RecordKind.unit K.RecordKind.reads) (seen (N.Nvm.meaning nvm.old) (D.Disk.meaning disk.old) Unmounted list) Mount (blocks_answer result) (seen (N.Nvm.meaning nvm.new) (D.Disk.meaning disk.new) (if_done result Idle Unmounted) list) }
{
    check_power(nvm, disk)?;
    let units = nvm.units();
    let blocks = disk.blocks();
    if !fit_sizes(units, blocks) {
        return Err(Refusal::BadSize);
    }
    settle_both(nvm, disk)?;
    let ring = check_contents(nvm, units - 1, blocks)?;
    checkpoint_devices(nvm, disk, ring, blocks, scratch)
}
