//! Commit.
ghost use Rattle.std.specs.Prelude.{◌≡◌, [], MatchResult};
ghost use Rattle.ringlaws.specs.Layout.{Contents, head_of, tail_of};
ghost use Rattle.calls.specs.declared.state.State.TheVariants.{Idle, Open};
ghost use Rattle.calls.specs.declared.call.Call.TheVariants.{Commit};
ghost use Rattle.calls.specs.Steps.{Step};
ghost use Rattle.order.specs.Order.{InOrder, kind_of};
ghost use Rattle.calling.specs.Seen.{seen, used_answer, if_done};
ghost use Rattle.committing.specs.Room.{HasRoom, LacksRoom};

use acting::both::check_power;
use acting::commit::commit_settings;
use calling::ends::ring_ends;
use device::disk::Disk;
use device::nvm::Nvm;
use kinds::kind::RecordKind;
use refusal::reason::Refusal;
use ringlaws::setting::Setting;
use ringunits::info::{COUNT_LIMIT, places_taken};
use ringunits::places::Ring;

/// How many places are used once the settings are committed. One place of the ring always stays free; no settings need no place.
fn used_then(ring: Ring, settings: &[Setting]) -> Result<usize, Refusal>
    ensures { (c : Contents) → ring.head ≡ head_of c → ring.tail ≡ tail_of c → MatchResult result (HasRoom ring.places c settings.now) (LacksRoom ring.places c settings.now) }
{
    let count = settings.len();
    if !ring.is_valid() || count > COUNT_LIMIT {
        return Err(Refusal::Beyond);
    }
    let used = ring.used();
    if count == 0 {
        return Ok(used);
    }
    let then = used + places_taken(count);
    if then > ring.places - 1 {
        return Err(Refusal::RingFull);
    }
    Ok(then)
}

/// Commits the settings of the open transaction of a store of records of the kind `K`. Answers how many places are used then.
pub fn commit_call<K: RecordKind, N: Nvm, D: Disk>(
    nvm: &mut N,
    disk: &D,
    settings: &[Setting],
) -> Result<usize, Refusal>
    ensures { InOrder (seen (N.Nvm.meaning nvm.old) (D.Disk.meaning disk.now) Open settings.now) → Step (kind_of K.RecordKind.unit K.RecordKind.reads) (seen (N.Nvm.meaning nvm.old) (D.Disk.meaning disk.now) Open settings.now) Commit (used_answer result) (seen (N.Nvm.meaning nvm.new) (D.Disk.meaning disk.now) (if_done result Idle Open) (if_done result [] settings.now)) }
{
    check_power(nvm, disk)?;
    let ring = ring_ends(nvm)?;
    let then = used_then(ring, settings)?;
    commit_settings(nvm, ring.places, ring.tail, settings)?;
    Ok(then)
}
