//! Why a call is refused: one enum for every layer, and the number of each case.
#![tactic(auto)]

ghost use Rattle.std.specs.Prelude.{◌≡◌};
ghost use Rattle.refusal.specs.declared.reason.Refusal.TheVariants.{NoMemory};
ghost use Rattle.refusal.specs.Numbers.{number_of};

pub mod reason;

use reason::Refusal;
use std::alloc::{AllocError, AllocFailed};

impl Refusal {
    /// The number that stands for this refusal in answers and in documents.
    // Kept: a method and no `From`, which loses nothing of what it converts: the number leaves out the unsound ring's place.
    pub fn number(self) -> u32
        ensures { result ≡ number_of self }
    {
        match self {
            Refusal::Beyond => 1,
            Refusal::Unsettled => 2,
            Refusal::Dark => 5,
            Refusal::NoMemory => 9,
            Refusal::BadSize => 10,
            Refusal::NoGroundMark => 11,
            Refusal::BadHeader => 12,
            Refusal::UnsoundRing(_) => 13,
            Refusal::Mounted => 20,
            Refusal::NotMounted => 21,
            Refusal::AlreadyOpen => 22,
            Refusal::NotOpen => 23,
            Refusal::NoSuchRecord => 31,
            Refusal::TooManyRecords => 32,
            Refusal::RingFull => 33,
            Refusal::ForeignUnit => 34,
            Refusal::ColumnOrRow => 40,
            Refusal::Level => 41,
            Refusal::NameLength => 42,
            Refusal::NameByte => 43,
        }
    }
}

/// An allocation that fails is refused for want of memory.
impl From<AllocError> for Refusal {
    ghost from_gives = { λ _ e. e ≡ NoMemory };

    fn from(_: AllocError) -> Refusal {
        Refusal::NoMemory
    }
}

/// So is a value that finds no room.
impl<T: Drop> From<AllocFailed<T>> for Refusal {
    ghost from_gives = { λ _ e. e ≡ NoMemory };

    fn from(_: AllocFailed<T>) -> Refusal {
        Refusal::NoMemory
    }
}
