//! The rows of a ring, gathered by one walk back from its tail.
ghost use Rattle.std.specs.Prelude.{◌≡◌, ℕ, ◌+◌, ◌-◌, ◌<◌, ◌≤◌, length, MatchResult};
ghost use Rattle.std.specs.Option.{option_map};
ghost use Rattle.ringlaws.specs.Layout.{Contents, before};
ghost use Rattle.ringlaws.specs.TxnInfo.{taken, count_limit};
ghost use Rattle.ringlaws.specs.Newest.{index_of, or_else, newest};
ghost use Rattle.ring.specs.Sources.{Agrees};
ghost use Rattle.ring.specs.Walks.{WhyRefused};
ghost use Rattle.checkpointing.specs.Rows.{place_in};

use crate::rows::{Row, Rows};
use refusal::reason::Refusal;
use ring::source::Source;
use ring::walk::Walk;
use ringunits::info::places_taken;
use ringunits::places::{Ring, place_before};

/// Adds the rows of the transaction that ends before a place and sets the records with these numbers.
fn add_rows(rows: &mut Rows, places: usize, place: usize, numbers: &[u64])
    requires ring { (place < places) × (places ≤ 255) }
    requires few { (length numbers.now ≤ count_limit) × (taken (length numbers.now) ≤ places) }
    requires room { length rows.old + length numbers.now ≤ 255 }
    ensures long { length rows.new ≡ length rows.old + length numbers.now }
    ensures rows { (r : ℕ) → place_in rows.new r ≡ or_else (place_in rows.old r) (option_map (λ k. before places place (taken (length numbers.now) - k)) (index_of r numbers.now)) }
{
    let taken = places_taken(numbers.len());
    for (index, number) in numbers.iter().enumerate() {
        rows.push(Row {
            number: *number,
            place: place_before(places, place, taken - index),
        });
    }
}

/// Gathers the rows of a ring, or answers why the ring cannot be walked.
pub fn gather<S: Source>(
    source: &S,
    ring: Ring,
    blocks: usize,
    rows: &mut Rows,
) -> Result<(), Refusal>
    ensures { MatchResult result (λ _. (c : Contents) → Agrees (S.reads source.now) c → (r : ℕ) → newest ring.places c ring.head ring.tail r ≡ place_in rows.new r) (λ e. WhyRefused (S.reads source.now) ring.places blocks ring.head ring.tail e) }
{
    rows.clear();
    let mut walk = Walk::from_tail(source, ring, blocks)?;
    let mut end = ring.tail;
    while let Some(step) = walk.step()? {
        add_rows(rows, ring.places, end, step.numbers());
        end = step.first;
    }
    Ok(())
}
