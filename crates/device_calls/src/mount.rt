//! Mount.
ghost use Rattle.calls.specs.declared.call.Call.TheVariants.{Mount};
ghost use Rattle.order.specs.Order.{kind_of};
ghost use Rattle.calling.specs.Seen.{blocks_answer};
ghost use Rattle.engine.specs.Called.{Called};
ghost use Rattle.engine.specs.Machine.{machine};

use calls::call::Call;
use calls::state::State;
use device::disk::Disk;
use device::nvm::Nvm;
use engine::engine::Engine;
use kinds::kind::RecordKind;
use mounting::mount::mount_call;
use refusal::reason::Refusal;

/// Mounts the store: settles everything, looks at the contents, and empties the ring. Answers the number of blocks written.
pub fn mount<N: Nvm, D: Disk, K: RecordKind>(engine: &mut Engine<N, D, K>) -> Result<usize, Refusal>
    ensures { Called (kind_of K.RecordKind.unit K.RecordKind.reads) (machine N.Nvm.meaning D.Disk.meaning engine.old) Mount (blocks_answer result) (machine N.Nvm.meaning D.Disk.meaning engine.new) }
{
    engine.admit(&Call::Mount)?;
    let blocks = mount_call::<K, N, D>(&mut engine.nvm, &mut engine.disk, &mut engine.scratch)?;
    engine.state = State::Idle;
    Ok(blocks)
}
