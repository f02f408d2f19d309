//! A record kind: which unit a record is written as, and which units read as a record.
ghost use Rattle.std.specs.Prelude.{◌≡◌, ℕ, List, length, replicate, Some, Option, ◌≢◌};

/// A kind of record. Each record is written as a unit of 32 words.
pub trait RecordKind {
    type Record;

    // The unit that a record is written as.
    ghost unit: { Self.Record → List ℕ };

    // The record that a unit reads as, if it reads as one.
    ghost reads: { List ℕ → Option Self.Record };

    /// Writes the record's unit into the place.
    fn encode(value: &Self::Record, place: &mut [u64; 32])
        ensures { place.new ≡ unit value.now };

    /// The record that the words read as.
    fn decode(words: &[u64; 32]) -> Option<Self::Record>
        ensures { result ≡ reads words.now };

    // A unit has 32 words.
    ghost whole: { (r : Self.Record) → length (unit r) ≡ 32 };

    // No record is written as 32 zero words, which stand for an absent record.
    ghost nonzero: { (r : Self.Record) → unit r ≢ replicate 32 0 };

    // A record's unit reads as that record.
    ghost back: { (r : Self.Record) → reads (unit r) ≡ Some r };

    // A unit that reads as a record is that record's unit.
    ghost only: { (u : List ℕ) (r : Self.Record) → reads u ≡ Some r → u ≡ unit r };
}
