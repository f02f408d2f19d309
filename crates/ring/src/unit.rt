//! A unit loaded whole.
ghost use Rattle.std.specs.Prelude.{◌≡◌, ℕ, ◌+◌, ◌≤◌, MatchResult};
ghost use Rattle.ringlaws.specs.Layout.{Contents, unit_at};
ghost use Rattle.ring.specs.Sources.{Agrees, RefusesWithin};

use crate::source::Source;
use refusal::reason::Refusal;

/// The 32 words of a unit.
pub fn load_unit<S: Source>(source: &S, unit: usize) -> Result<[u64; 32], Refusal>
    requires { unit ≤ 255 }
    ensures { MatchResult result (λ words. (c : Contents) → Agrees (S.reads source.now) c → words ≡ unit_at c unit) (λ e. RefusesWithin (S.reads source.now) (unit + 1) e) }
{
    let mut words = [0; 32];
    for (i, word) in words.iter_mut().enumerate() {
        *word = source.word(32 * unit + i)?;
    }
    Ok(words)
}
