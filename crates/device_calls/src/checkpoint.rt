//! Checkpoint and close.
ghost use Rattle.calls.specs.declared.call.Call.TheVariants.{Checkpoint, Close};
ghost use Rattle.order.specs.Order.{InOrder, kind_of};
ghost use Rattle.calling.specs.Seen.{done_answer, blocks_answer};
ghost use Rattle.engine.specs.Called.{Called};
ghost use Rattle.engine.specs.Machine.{machine};

use calling::checkpoint::checkpoint_call;
use calls::call::Call;
use calls::state::State;
use device::disk::Disk;
use device::nvm::Nvm;
use engine::engine::Engine;
use kinds::kind::RecordKind;
use refusal::reason::Refusal;

/// Writes the homes that the ring names and empties the ring. Answers the number of blocks written.
pub fn checkpoint<N: Nvm, D: Disk, K: RecordKind>(
    engine: &mut Engine<N, D, K>,
) -> Result<usize, Refusal>
    ensures { InOrder (machine N.Nvm.meaning D.Disk.meaning engine.old) → Called (kind_of K.RecordKind.unit K.RecordKind.reads) (machine N.Nvm.meaning D.Disk.meaning engine.old) Checkpoint (blocks_answer result) (machine N.Nvm.meaning D.Disk.meaning engine.new) }
{
    engine.admit(&Call::Checkpoint)?;
    checkpoint_call::<K, N, D>(&mut engine.nvm, &mut engine.disk, &mut engine.scratch)
}

/// Checkpoints and unmounts the store.
pub fn close<N: Nvm, D: Disk, K: RecordKind>(engine: &mut Engine<N, D, K>) -> Result<(), Refusal>
    ensures { InOrder (machine N.Nvm.meaning D.Disk.meaning engine.old) → Called (kind_of K.RecordKind.unit K.RecordKind.reads) (machine N.Nvm.meaning D.Disk.meaning engine.old) Close (done_answer result) (machine N.Nvm.meaning D.Disk.meaning engine.new) }
{
    engine.admit(&Call::Close)?;
    checkpoint_call::<K, N, D>(&mut engine.nvm, &mut engine.disk, &mut engine.scratch)?;
    engine.state = State::Unmounted;
    Ok(())
}
