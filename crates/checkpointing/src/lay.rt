//! The newest units of a block's records, laid over the block.
ghost use Rattle.std.specs.Prelude.{◌≡◌, ℕ, ◌+◌, ◌*◌, ◌<◌, MatchResult};
ghost use Rattle.ringlaws.specs.Layout.{Contents, unit_at};
ghost use Rattle.ring.specs.Sources.{Agrees, RefusesWithin};
ghost use Rattle.ringunits.specs.Images.{contents_of};
ghost use Rattle.checkpointing.specs.Rows.{place_in, LieIn, unit_from};

use crate::rows::Rows;
use refusal::reason::Refusal;
use ring::source::Source;
use ring::unit::load_unit;
use ringunits::fill::fill;

/// Lays the units of a block's 16 records over it, each where it has its home.
pub fn lay_block<S: Source>(
    source: &S,
    rows: &Rows,
    block: usize,
    buf: &mut [u64; 512],
) -> Result<(), Refusal>
    requires { block < 4096 }
    ensures { MatchResult result (λ _. (c : Contents) → Agrees (S.reads source.now) c → (k : ℕ) → k < 16 → unit_at (contents_of buf.new) k ≡ unit_from c (place_in rows.now (16 * block + k)) (unit_at (contents_of buf.old) k)) (λ e. (units : ℕ) → LieIn units rows.now → RefusesWithin (S.reads source.now) units e) }
{
    for i in 0..16 {
        if let Some(place) = rows.place_of((16 * block + i) as u64) {
            let words = load_unit(source, place + 1)?;
            fill(buf, i, &words);
        }
    }
    Ok(())
}
