//! Writing a record as a unit, and reading the unit back.
ghost use Rattle.std.specs.Prelude.{◌≡◌, Some};

use kinds::kind::RecordKind;

/// The unit that a record was written as, and the record that the unit reads as.
#[derive(Drop)]
pub struct RoundTrip<R> {
    pub unit: [u64; 32],
    pub back: R,
}

/// Writes a record of any kind as its unit and reads the unit back, which gives the same record.
pub fn write_and_read<K: RecordKind>(value: &K::Record) -> RoundTrip<K::Record>
    ensures unit { result.unit ≡ K.RecordKind.unit value.now }
    ensures back { result.back ≡ value.now }
    ensures read { K.RecordKind.reads result.unit ≡ Some result.back }
{
    let mut unit = [0u64; 32];
    K::encode(value, &mut unit);
    match K::decode(&unit) {
        Some(back) => RoundTrip { unit, back },
        None => unreachable(),
    }
}
