//! The acts of a commit.
ghost use Rattle.std.specs.Prelude.{◌≡◌, ◌+◌, ◌*◌, ◌<◌, ◌≤◌, length};
ghost use Rattle.device.specs.Words.{nvm_rules};
ghost use Rattle.crash.specs.Acts.{RanOn};
ghost use Rattle.crash.specs.Rows.{storing};
ghost use Rattle.ringlaws.specs.Layout.{most_places, after};
ghost use Rattle.ringlaws.specs.TxnInfo.{count_limit, taken};
ghost use Rattle.ringlaws.specs.Spells.{units_of};
ghost use Rattle.calls.specs.Acts.{placing, flushing_places};
ghost use Rattle.acting.specs.Commits.{laying, RanCommit};

use crate::memory::{flush_lines, seal, store_words};
use device::nvm::Nvm;
use refusal::reason::Refusal;
use ringlaws::setting::Setting;
use ringunits::fill::place_words;
pub use ringunits::header::TAIL_WORD;
use ringunits::info::places_taken;
use ringunits::places::place_after;

/// Stores the words of a unit at a place. Nothing else stores a place.
pub fn store_place<N: Nvm>(nvm: &mut N, place: usize, words: &[u64; 32]) -> Result<(), Refusal>
    requires { place < most_places }
    ensures { RanOn nvm_rules (N.meaning nvm.old) (storing (32 * (place + 1)) words.now) result (N.meaning nvm.new) }
{
    store_words(nvm, 32 * (place + 1), words)
}

/// A transaction's settings, and the places from the tail on that they go to, in a ring that has room for them.
#[derive(Drop)]
struct Stretch<'a> {
    places: usize,
    tail: usize,
    settings: &'a [Setting],
    ghost most: { places ≤ most_places },
    ghost within: { tail < places },
    ghost few: { length settings.now ≤ count_limit },
    ghost fits: { taken (length settings.now) ≤ places },
}

impl<'a> Stretch<'a> {
    /// How many places the transaction takes.
    fn taken(&self) -> usize
        ensures { result ≡ taken (length self.now.settings.now) }
    {
        places_taken(self.settings.len())
    }

    /// The place so many steps after the tail.
    fn place(&self, steps: usize) -> usize
        requires { steps ≤ self.now.places }
        ensures { result ≡ after self.now.places self.now.tail steps }
    {
        place_after(self.places, self.tail, steps)
    }

    /// Stores the transaction at its places: its records, then its TxnInfo.
    fn store<N: Nvm>(&self, nvm: &mut N) -> Result<(), Refusal>
        ensures { RanOn nvm_rules (N.meaning nvm.old) (placing self.now.places self.now.tail (units_of self.now.settings.now)) result (N.meaning nvm.new) }
    {
        for k in 0..self.taken() {
            let words = place_words(self.settings, k);
            store_place(nvm, self.place(k), &words)?;
        }
        Ok(())
    }

    /// Flushes the four lines of each of the transaction's places.
    fn flush<N: Nvm>(&self, nvm: &mut N) -> Result<(), Refusal>
        ensures { RanOn nvm_rules (N.meaning nvm.old) (flushing_places self.now.places self.now.tail (taken (length self.now.settings.now))) result (N.meaning nvm.new) }
    {
        for k in 0..self.taken() {
            flush_lines(nvm, 4 * (self.place(k) + 1), 4)?;
        }
        Ok(())
    }

    /// Stores the transaction at its places and makes it last there.
    fn lay<N: Nvm>(&self, nvm: &mut N) -> Result<(), Refusal>
        ensures { RanOn nvm_rules (N.meaning nvm.old) (laying self.now.places self.now.tail self.now.settings.now) result (N.meaning nvm.new) }
    {
        self.store(nvm)?;
        self.flush(nvm)?;
        nvm.fence()
    }
}

/// Commits a transaction to a ring of `places` places: makes it last from the tail on, and then moves the tail over it. An empty
/// one needs no act.
pub fn commit_settings<N: Nvm>(
    nvm: &mut N,
    places: usize,
    tail: usize,
    settings: &[Setting],
) -> Result<(), Refusal>
    requires most { places ≤ most_places }
    requires tail { tail < places }
    requires few { length settings.now ≤ count_limit }
    requires fits { taken (length settings.now) ≤ places }
    ensures { RanCommit places tail settings.now (N.meaning nvm.old) result (N.meaning nvm.new) }
{
    if settings.is_empty() {
        return Ok(());
    }
    let stretch = Stretch {
        places,
        tail,
        settings,
    };
    stretch.lay(nvm)?;
    seal(nvm, TAIL_WORD, stretch.place(stretch.taken()) as u64)
}
