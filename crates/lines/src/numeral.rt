//! Numbers as a line has them.
ghost use Rattle.std.specs.Prelude.{◌≡◌, ◌<◌, ◌⊎◌, ◌≢◌, length, MatchOption, slice_index};
ghost use Rattle.std.specs.Str.{IsUtf8};
ghost use Rattle.lines.specs.Numerals.{word_of, level_of, ReadBack};

/// How many digits a number below 2^64 has at most, behind its leading zeros.
const MOST_DIGITS: usize = 20;

/// A word behind its leading zeros, which write nothing; of zeros alone, one.
fn significant(word: &[u8]) -> &[u8]
    ensures same { word_of result.now ≡ word_of word.now }
    ensures first { 1 < length result.now → slice_index result.now 0 ≢ 48 }
{
    match word.iter().position(|c| *c != b'0') {
        Some(zeros) => &word[zeros..],
        None => &word[..word.len().min(1)],
    }
}

/// The bytes as a text, if no plus stands first, which `parse` would take.
fn without_plus(bytes: &[u8]) -> Option<&str>
    ensures { MatchOption result ((IsUtf8 bytes.now → ⊥) ⊎ (slice_index bytes.now 0 ≡ 43)) (λ text. (text.now ≡ bytes.now) × (slice_index bytes.now 0 ≢ 43)) }
{
    match bytes {
        [b'+', ..] => None,
        _ => str::from_utf8(bytes).ok(),
    }
}

/// The number that an unsigned decimal word writes: one or more digits, below 2^64.
#[tactic(auto, using(crate::proofs::Reading::read_back))]
pub fn number(word: &[u8]) -> Option<u64>
    ensures value { result ≡ word_of word.now }
    ensures law { ReadBack }
{
    let digits = significant(word);
    if digits.len() > MOST_DIGITS {
        return None;
    }
    without_plus(digits)?.parse().ok()
}

/// The level that a word, or a minus and a word, writes, if it fits 16 bits.
pub fn level(text: &[u8]) -> Option<i16>
    ensures { result ≡ level_of text.now }
{
    match text {
        [b'-', word @ ..] => i16::try_from(-i64::try_from(number(word)?).ok()?).ok(),
        _ => i16::try_from(number(text)?).ok(),
    }
}
