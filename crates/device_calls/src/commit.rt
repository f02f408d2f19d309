//! Commit.
ghost use Rattle.calls.specs.declared.call.Call.TheVariants.{Commit};
ghost use Rattle.order.specs.Order.{InOrder, kind_of};
ghost use Rattle.calling.specs.Seen.{used_answer};
ghost use Rattle.engine.specs.Called.{Called};
ghost use Rattle.engine.specs.Machine.{machine};

use calls::call::Call;
use calls::state::State;
use committing::commit::commit_call;
use device::disk::Disk;
use device::nvm::Nvm;
use engine::engine::Engine;
use kinds::kind::RecordKind;
use refusal::reason::Refusal;

/// Commits the open transaction. Answers the places of the ring that are used then.
pub fn commit<N: Nvm, D: Disk, K: RecordKind>(
    engine: &mut Engine<N, D, K>,
) -> Result<usize, Refusal>
    ensures { InOrder (machine N.Nvm.meaning D.Disk.meaning engine.old) → Called (kind_of K.RecordKind.unit K.RecordKind.reads) (machine N.Nvm.meaning D.Disk.meaning engine.old) Commit (used_answer result) (machine N.Nvm.meaning D.Disk.meaning engine.new) }
{
    engine.admit(&Call::Commit)?;
    let used = commit_call::<K, N, D>(&mut engine.nvm, &engine.disk, engine.settings.as_slice())?;
    engine.settings.clear();
    engine.state = State::Idle;
    Ok(used)
}
