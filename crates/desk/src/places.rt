//! The ring place by place.
use crate::ring_desk::RingDesk;
use crate::rings::{BLOCKS, PLACES};
use ring::source::Words;
use ring::unit::load_unit;
use ring::walk::Walk;
use ringunits::places::place_before;

/// What a place of the ring is.
#[derive(Clone, Copy)]
pub enum Role {
    /// No transaction has it.
    Free,
    /// It holds the unit of this record.
    Record(u64),
    /// It is the TxnInfo of so many records.
    TxnInfo { count: usize, words: [u64; 32] },
    /// Stepping back from the tail is refused before it comes to this place.
    NotReached,
}

impl RingDesk {
    /// The words of a place, or zeros where there is no such place.
    pub fn unit(&self, place: usize) -> [u64; 32] {
        if place >= PLACES {
            return [0; 32];
        }
        load_unit(&Words(self.words()), place + 1).unwrap_or([0; 32])
    }

    /// What a place is, by stepping back from the tail to the transaction that has it.
    pub fn role(&self, place: usize) -> Role {
        let ring = self.ring();
        if place >= PLACES || !ring.is_valid() {
            return Role::NotReached;
        }
        if place_before(PLACES, place, ring.head) >= ring.used() {
            return Role::Free;
        }
        let words = Words(self.words());
        let Ok(mut walk) = Walk::from_tail(&words, ring, BLOCKS) else {
            return Role::NotReached;
        };
        while let Ok(Some(step)) = walk.step() {
            let index = place_before(PLACES, place, step.first);
            if index < step.count {
                return Role::Record(step.info[index]);
            }
            if index == step.count {
                return Role::TxnInfo {
                    count: step.count,
                    words: step.info,
                };
            }
        }
        Role::NotReached
    }
}
