//! Format.
ghost use Rattle.calls.specs.declared.call.Call.TheVariants.{Format};
ghost use Rattle.order.specs.Order.{kind_of};
ghost use Rattle.calling.specs.Seen.{done_answer};
ghost use Rattle.engine.specs.Called.{Called};
ghost use Rattle.engine.specs.Machine.{machine};

use calling::format::format_call;
use calls::call::Call;
use device::disk::Disk;
use device::nvm::Nvm;
use engine::engine::Engine;
use kinds::kind::RecordKind;
use refusal::reason::Refusal;

/// Formats the devices of an unmounted store.
pub fn format<N: Nvm, D: Disk, K: RecordKind>(engine: &mut Engine<N, D, K>) -> Result<(), Refusal>
    ensures { Called (kind_of K.RecordKind.unit K.RecordKind.reads) (machine N.Nvm.meaning D.Disk.meaning engine.old) Format (done_answer result) (machine N.Nvm.meaning D.Disk.meaning engine.new) }
{
    engine.admit(&Call::Format)?;
    format_call::<K, N, D>(&mut engine.nvm, &mut engine.disk)?;
    engine.settings.clear();
    Ok(())
}
