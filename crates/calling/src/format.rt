//! Format.
ghost use Rattle.ringlaws.specs.TxnInfo.{Transaction};
ghost use Rattle.std.specs.Prelude.{[]};
ghost use Rattle.calls.specs.declared.state.State.TheVariants.{Unmounted};
ghost use Rattle.calls.specs.declared.call.Call.TheVariants.{Format};
ghost use Rattle.calls.specs.Steps.{Step};
ghost use Rattle.order.specs.Order.{kind_of};
ghost use Rattle.calling.specs.Seen.{seen, done_answer, if_done};

use crate::sizes::fit_sizes;
use acting::both::check_power;
use acting::format::format_devices;
use device::disk::Disk;
use device::nvm::Nvm;
use kinds::kind::RecordKind;
use refusal::reason::Refusal;

/// Formats the devices of an unmounted store of records of the kind `K`.
pub fn format_call<K: RecordKind, N: Nvm, D: Disk>(nvm: &mut N, disk: &mut D) -> Result<(), Refusal>
    ensures { (list : Transaction) → Step (kind_of K.RecordKind.unit K.RecordKind.reads) (seen (N.Nvm.meaning nvm.old) (D.Disk.meaning disk.old) Unmounted list) Format (done_answer result) (seen (N.Nvm.meaning nvm.new) (D.Disk.meaning disk.new) Unmounted (if_done result [] list)) }
{
    check_power(nvm, disk)?;
    let units = nvm.units();
    let blocks = disk.blocks();
    if !fit_sizes(units, blocks) {
        return Err(Refusal::BadSize);
    }
    format_devices(nvm, disk, units - 1, blocks)
}
