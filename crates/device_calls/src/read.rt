//! Read.
ghost use Rattle.calls.specs.declared.call.Call.TheVariants.{Read};
ghost use Rattle.order.specs.Order.{InOrder, kind_of};
ghost use Rattle.engine.specs.Called.{Called};
ghost use Rattle.engine.specs.Machine.{machine};
ghost use Rattle.device_calls.specs.Answers.{read_answer};

use calling::read::read_call;
use calls::call::Call;
use device::disk::Disk;
use device::nvm::Nvm;
use engine::engine::Engine;
use kinds::kind::RecordKind;
use refusal::reason::Refusal;
use ringunits::info::all_zero;

/// The record with a number: the open transaction's own setting comes first, then the newest in the ring, then the home.
pub fn read<N: Nvm, D: Disk, K: RecordKind>(
    engine: &mut Engine<N, D, K>,
    number: u64,
) -> Result<Option<K::Record>, Refusal>
    ensures { InOrder (machine N.Nvm.meaning D.Disk.meaning engine.old) → Called (kind_of K.RecordKind.unit K.RecordKind.reads) (machine N.Nvm.meaning D.Disk.meaning engine.old) (Read number) (read_answer result) (machine N.Nvm.meaning D.Disk.meaning engine.new) }
{
    engine.admit(&Call::Read(number))?;
    let own = engine.settings.unit_of(number);
    let unit = read_call(
        &engine.nvm,
        &engine.disk,
        own,
        number,
        &mut engine.scratch.block,
    )?;
    if all_zero(&unit) {
        return Ok(None);
    }
    match K::decode(&unit) {
        Some(value) => Ok(Some(value)),
        None => Err(Refusal::ForeignUnit),
    }
}
