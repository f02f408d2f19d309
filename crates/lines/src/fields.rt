//! The fields of a line by their places, as they stand and as numbers.
ghost use Rattle.std.specs.Prelude.{◌≡◌};
ghost use Rattle.lines.specs.Pieces.{fields_of};
ghost use Rattle.lines.specs.Fields.{field_at, word_at, level_at};

use crate::numeral::{level, number};
use crate::split::field;

/// The field `k` of a line, counted from 0, which is empty where the line has no such field.
pub fn field_at(line: &[u8], k: usize) -> &[u8]
    ensures { result.now ≡ field_at (fields_of line.now) k }
{
    field(line, k).unwrap_or(&[])
}

/// The word in field `k`.
pub fn word_at(line: &[u8], k: usize) -> Option<u64>
    ensures { result ≡ word_at (fields_of line.now) k }
{
    number(field_at(line, k))
}

/// The level in field `k`.
pub fn level_at(line: &[u8], k: usize) -> Option<i16>
    ensures { result ≡ level_at (fields_of line.now) k }
{
    level(field_at(line, k))
}
