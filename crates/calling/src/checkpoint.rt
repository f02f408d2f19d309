//! Checkpoint, and the checkpoint of a close.
ghost use Rattle.std.specs.Prelude.{◌≡◌, ◌≢◌};
ghost use Rattle.ringlaws.specs.TxnInfo.{Transaction};
ghost use Rattle.calls.specs.declared.state.State.{State};
ghost use Rattle.calls.specs.declared.state.State.TheVariants.{Unmounted, Idle};
ghost use Rattle.calls.specs.declared.call.Call.TheVariants.{Checkpoint, Close};
ghost use Rattle.calls.specs.Steps.{Step};
ghost use Rattle.order.specs.Order.{InOrder, kind_of};
ghost use Rattle.calling.specs.Seen.{seen, done_answer, blocks_answer, if_done};

use crate::ends::ring_ends;
use acting::both::check_power;
use checkpointing::devices::checkpoint_devices;
use checkpointing::scratch::Scratch;
use device::disk::Disk;
use device::nvm::Nvm;
use kinds::kind::RecordKind;
use refusal::reason::Refusal;

/// Writes the homes that the ring names and empties the ring, in a store of records of the kind `K` that is mounted. Answers the
/// number of blocks written. A close does the same.
pub fn checkpoint_call<K: RecordKind, N: Nvm, D: Disk>(
    nvm: &mut N,
    disk: &mut D,
    scratch: &mut Scratch,
) -> Result<usize, Refusal>
    ensures checkpoint { (state : State) (list : Transaction) → (state ≢ Unmounted) → InOrder (seen (N.Nvm.meaning nvm.old) (D.Disk.meaning disk.old) state list) → Step (kind_of K.RecordKind.unit K.RecordKind.reads) (seen (N.Nvm.meaning nvm.old) (D.Disk.meaning disk.old) state list) Checkpoint (blocks_answer result) (seen (N.Nvm.meaning nvm.new) (D.Disk.meaning disk.new) state list) }
    ensures close { (list : Transaction) → InOrder (seen (N.Nvm.meaning nvm.old) (D.Disk.meaning disk.old) Idle list) → Step (kind_of K.RecordKind.unit K.RecordKind.reads) (seen (N.Nvm.meaning nvm.old) (D.Disk.meaning disk.old) Idle list) Close (done_answer result) (seen (N.Nvm.meaning nvm.new) (D.Disk.meaning disk.new) (if_done result Unmounted Idle) list) }
{
    check_power(nvm, disk)?;
    let ring = ring_ends(nvm)?;
    let blocks = disk.blocks();
    checkpoint_devices(nvm, disk, ring, blocks, scratch)
}
