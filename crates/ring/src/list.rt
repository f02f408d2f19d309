//! The transactions of a ring, in memory of their own.
ghost use Rattle.std.specs.Prelude.{◌≡◌, ℕ, ◌+◌, ◌<◌, ◌≤◌, true, ◌⊎◌, length, MatchResult};
ghost use Rattle.refusal.specs.declared.reason.Refusal.TheVariants.{NoMemory};
ghost use Rattle.ringlaws.specs.Layout.{Contents};
ghost use Rattle.ringlaws.specs.Sound.{settings_at};
ghost use Rattle.ring.specs.Sources.{Agrees, RefusesWithin};
ghost use Rattle.ring.specs.Walks.{Lists};

use crate::source::Source;
use crate::unit::load_unit;
use crate::walk::Walk;
use refusal::reason::Refusal;
use ringlaws::setting::Setting;
use ringunits::places::{Ring, place_after};
use std::alloc::Global;

/// The settings of these numbers, with the units in the places from `first` on.
fn read_settings<S: Source>(
    heap: Global,
    source: &S,
    places: usize,
    first: usize,
    numbers: &[u64],
) -> Result<Vec<Setting>, Refusal>
    requires { (places ≤ 255) × ((first < places) × (length numbers.now ≤ places)) }
    ensures { MatchResult result (λ v. (c : Contents) → Agrees (S.reads source.now) c → v.items ≡ settings_at places c first 0 numbers.now) (λ e. (e ≡ NoMemory) ⊎ RefusesWithin (S.reads source.now) (places + 1) e) }
{
    let mut settings = Vec::new(heap);
    for (i, number) in numbers.iter().enumerate() {
        let place = place_after(places, first, i);
        let unit = load_unit(source, place + 1)?;
        settings.push(Setting {
            number: *number,
            unit,
        })?;
    }
    Ok(settings)
}

/// The one list of transactions that a ring spells, the oldest first, or why there is none. A head or tail that is no place,
/// or more than 255 places, is refused as beyond the size.
pub fn transactions<S: Source>(
    heap: Global,
    source: &S,
    ring: Ring,
    blocks: usize,
) -> Result<Vec<Vec<Setting>>, Refusal>
    ensures { Lists (S.reads source.now) ring.places blocks ring.head ring.tail result }
{
    let mut walk = Walk::from_tail(source, ring, blocks)?;
    let mut newest_first = Vec::new(heap);
    while let Some(step) = walk.step()? {
        let settings = read_settings(heap, source, ring.places, step.first, step.numbers())?;
        newest_first.push(settings)?;
    }
    newest_first.reverse();
    Ok(newest_first)
}
