//! What is done with the ring: each is one call of the ring's library.
ghost use Rattle.std.specs.Prelude.{◌≡◌, [], is_some, if◌then◌else◌, Ok, Err, MatchResult, nat_lt, slice_set};
ghost use Rattle.refusal.specs.declared.reason.Refusal.TheVariants.{Beyond, NoMemory};
ghost use Rattle.ringunits.specs.Images.{Appends};
ghost use Rattle.ring.specs.Sources.{word_of};
ghost use Rattle.ring.specs.Walks.{Finds, Lists};
ghost use Rattle.desk.specs.Desks.{image_of, waiting_of, empty_image, head_in, tail_in};

use crate::ring_desk::RingDesk;
use refusal::reason::Refusal;
use ring::source::Words;
use ring::{find, list};
use ringlaws::setting::Setting;
use ringunits::fill::append;
use ringunits::header::{HEAD_WORD, TAIL_WORD};
use ringunits::info::COUNT_LIMIT;
use ringunits::places::Ring;
use std::alloc::Global;

/// The places of the ring.
pub const PLACES: usize = 32;

/// The blocks of the disk that the ring would be for: records 0 to 63.
pub const BLOCKS: usize = 4;

impl RingDesk {
    /// An empty ring, whose first transaction wraps, and nothing that waits.
    pub fn new(heap: Global) -> Result<RingDesk, Refusal>
        ensures { MatchResult result (λ d. (image_of d ≡ empty_image) × (waiting_of d ≡ [])) (λ e. e ≡ NoMemory) }
    {
        let mut image = vec![in heap; 0; 1056]?;
        image[HEAD_WORD] = 30;
        image[TAIL_WORD] = 30;
        let waiting = Vec::with_capacity(heap, COUNT_LIMIT)?;
        Ok(RingDesk { image, waiting })
    }

    /// The place where the ring begins.
    pub fn head(&self) -> usize
        ensures { result ≡ head_in (image_of self.now) }
    {
        self.image[HEAD_WORD] as usize
    }

    /// The place where it ends.
    pub fn tail(&self) -> usize
        ensures { result ≡ tail_in (image_of self.now) }
    {
        self.image[TAIL_WORD] as usize
    }

    /// The numbers of the ring.
    pub(crate) fn ring(&self) -> Ring
        ensures { result ≡ record { places = 32; head = head_in (image_of self.now); tail = tail_in (image_of self.now) } }
    {
        Ring {
            places: PLACES,
            head: self.head(),
            tail: self.tail(),
        }
    }

    /// The words of the image.
    pub fn words(&self) -> &[u64]
        ensures { result.now ≡ image_of self.now }
    {
        self.image.as_slice()
    }

    /// The settings that wait.
    pub fn waiting(&self) -> &[Setting]
        ensures { result.now ≡ waiting_of self.now }
    {
        self.waiting.as_slice()
    }

    /// Appends what waits as one transaction: the places that are used then. Where it cannot be appended, it waits on.
    pub fn commit(&mut self) -> Option<usize>
        ensures image { Appends 32 (waiting_of self.old) (image_of self.old) result (image_of self.new) }
        ensures waiting { waiting_of self.new ≡ (if is_some result then [] else waiting_of self.old) }
    {
        let done = append(self.image.as_mut_slice(), PLACES, self.waiting.as_slice());
        if done.is_some() {
            self.waiting.clear();
        }
        done
    }

    /// The transactions that the ring spells, the oldest first.
    pub fn transactions(&self, heap: Global) -> Result<Vec<Vec<Setting>>, Refusal>
        ensures { Lists (word_of (image_of self.now)) 32 4 (head_in (image_of self.now)) (tail_in (image_of self.now)) result }
    {
        let words = Words(self.image.as_slice());
        list::transactions(heap, &words, self.ring(), BLOCKS)
    }

    /// The newest place of a record.
    pub fn find(&self, number: u64) -> Result<Option<usize>, Refusal>
        ensures { Finds (word_of (image_of self.now)) 32 (head_in (image_of self.now)) (tail_in (image_of self.now)) number result }
    {
        let words = Words(self.image.as_slice());
        let ring = self.ring();
        find::find(&words, ring, number)
    }

    /// Sets one word of the image to a value, as a fault of the memory would.
    pub fn damage(&mut self, word: usize, value: u64) -> Result<(), Refusal>
        ensures answer { result ≡ (if nat_lt word 1056 then Ok tt else Err Beyond) }
        ensures image { image_of self.new ≡ slice_set (image_of self.old) word value }
        ensures waiting { waiting_of self.new ≡ waiting_of self.old }
    {
        if word >= self.image.len() {
            return Err(Refusal::Beyond);
        }
        self.image[word] = value;
        Ok(())
    }
}
