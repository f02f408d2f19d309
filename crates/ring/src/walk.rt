//! Walking a ring back from its tail, one transaction at a time.
ghost use Rattle.std.specs.Prelude.{◌≡◌, ◌<◌, ◌≤◌, true, false, MatchOption, MatchResult};
ghost use Rattle.refusal.specs.declared.reason.Refusal.TheVariants.{Beyond};
ghost use Rattle.ringlaws.specs.Layout.{is_ring, used_between};
ghost use Rattle.ring.specs.Walks.{Stepped, NoStep, Decides, WhyRefused, Checks};

use crate::source::Source;
use crate::step::Step;
use crate::unit::load_unit;
use refusal::reason::Refusal;
use ringunits::info::{is_info, places_taken};
use ringunits::places::{Ring, place_before};

/// Loads the unit before a place, judges it as a TxnInfo, and steps over its transaction.
pub fn step_back<S: Source>(
    source: &S,
    places: usize,
    blocks: usize,
    place: usize,
    left: usize,
) -> Result<Step, Refusal>
    requires { (places ≤ 255) × ((place < places) × (left < places)) }
    ensures { MatchResult result (λ s. Stepped (S.reads source.now) places blocks place left s) (λ e. NoStep (S.reads source.now) places blocks place left e) }
{
    let info_place = place_before(places, place, 1);
    let info = load_unit(source, info_place + 1)?;
    if !is_info(&info, blocks, left) {
        return Err(Refusal::UnsoundRing(info_place));
    }
    let count = info[30] as usize;
    let taken = places_taken(count);
    Ok(Step {
        first: place_before(places, place, taken),
        left: left - taken,
        count,
        info,
    })
}

/// A walk back over the used places of a ring, transaction by transaction, from the tail on: the place that it has come to, and
/// how many used places are left before that.
#[derive(Drop)]
pub struct Walk<'a, S: Source> {
    source: &'a S,
    ring: Ring,
    blocks: usize,
    place: usize,
    left: usize,
    ghost valid: { is_ring ring.places ring.head ring.tail ≡ true },
    ghost inside: { place < ring.places },
    ghost fits: { left < ring.places },
    ghost decides: { Decides (S.reads source.now) ring.places blocks ring.head ring.tail place left },
}

impl<'a, S: Source> Walk<'a, S> {
    /// A walk that stands at the tail. A head or tail that is no place, or more than 255 places, is refused as beyond the size.
    pub fn from_tail(source: &'a S, ring: Ring, blocks: usize) -> Result<Walk<'a, S>, Refusal>
        ensures { MatchResult result (λ w. (w.source.now ≡ source.now) × (w.ring ≡ ring) × (w.blocks ≡ blocks) × (w.place ≡ ring.tail) × (w.left ≡ used_between ring.places ring.head ring.tail)) (λ e. (is_ring ring.places ring.head ring.tail ≡ false) × (e ≡ Beyond)) }
    {
        if !ring.is_valid() {
            return Err(Refusal::Beyond);
        }
        Ok(Walk {
            source,
            ring,
            blocks,
            place: ring.tail,
            left: ring.used(),
        })
    }

    /// Steps over the transaction before the place, or answers `None` where no used place is left.
    pub fn step(&mut self) -> Result<Option<Step>, Refusal>
        ensures kept { (self.new.source.now ≡ self.old.source.now) × (self.new.ring ≡ self.old.ring) × (self.new.blocks ≡ self.old.blocks) }
        ensures stepped { MatchResult result (λ o. MatchOption o (self.old.left ≡ 0) (λ s. (0 < self.old.left) × Stepped (S.reads self.old.source.now) self.old.ring.places self.old.blocks self.old.place self.old.left s × (self.new.place ≡ s.first) × (self.new.left ≡ s.left))) (λ e. WhyRefused (S.reads self.old.source.now) self.old.ring.places self.old.blocks self.old.ring.head self.old.ring.tail e) }
    {
        if self.left == 0 {
            return Ok(None);
        }
        let step = step_back(
            self.source,
            self.ring.places,
            self.blocks,
            self.place,
            self.left,
        )?;
        self.place = step.first;
        self.left = step.left;
        Ok(Some(step))
    }
}

/// Whether a ring is sound, without memory: `Ok`, or why not. A head or tail that is no place, or more than 255 places, is
/// refused as beyond the size.
pub fn check<S: Source>(source: &S, ring: Ring, blocks: usize) -> Result<(), Refusal>
    ensures { Checks (S.reads source.now) ring.places blocks ring.head ring.tail result }
{
    let mut walk = Walk::from_tail(source, ring, blocks)?;
    while walk.step()?.is_some() {}
    Ok(())
}
