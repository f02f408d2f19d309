//! The first line of a text, and the fields of a line.
ghost use Rattle.std.specs.Prelude.{◌≡◌, ◌+◌, ◌<◌, [], ◌∷◌, length, drop, IfSome, MatchOption, ◌==◌};
ghost use Rattle.std.specs.Option.{option_map};
ghost use Rattle.std.specs.List.{slice_get};
ghost use Rattle.lines.specs.Pieces.{lines_of, fields_of};
ghost use Rattle.lines.specs.Splits.{Lined, Fielded};

/// What ends a line.
pub const NEWLINE: u8 = b'\n';

/// What stands between two fields.
pub const TAB: u8 = b'\t';

/// A text that has a line: its first line, and the text after it.
#[derive(Clone, Copy, Debug, PartialEq, Eq)]
pub struct Split<'a> {
    pub line: &'a [u8],
    pub rest: &'a [u8],
}

/// The text's first line and the text after it, or none of an empty text.
#[tactic(auto, using(crate::proofs::Cutting::lined))]
pub fn first_line(text: &[u8]) -> Option<Split<'_>>
    ensures lines { MatchOption result (text.now ≡ []) (λ s. lines_of text.now ≡ s.line.now ∷ lines_of s.rest.now) }
    ensures rest { IfSome result (λ s. s.rest.now ≡ drop (length s.line.now + 1) text.now) }
    ensures shorter { IfSome result (λ s. length s.rest.now < length text.now) }
    ensures law { Lined text.now (lines_of text.now) }
{
    if text.is_empty() {
        return None;
    }
    match text.iter().position(|c| *c == NEWLINE) {
        Some(end) => Some(Split {
            line: &text[..end],
            rest: &text[end + 1..],
        }),
        None => Some(Split {
            line: text,
            rest: &[],
        }),
    }
}

/// Whether the line has so many fields.
pub fn has_fields(line: &[u8], count: usize) -> bool
    ensures count { result ≡ (length (fields_of line.now) == count) }
    ensures law { Fielded line.now (fields_of line.now) }
{
    count > 0 && line.split(|c| *c == TAB).count() == count
}

/// The line's field `k`, counted from 0, or none where it has no more fields.
pub fn field(line: &[u8], k: usize) -> Option<&[u8]>
    ensures { option_map (λ x. x.now) result ≡ slice_get (fields_of line.now) k }
{
    line.split(|c| *c == TAB).nth(k)
}
