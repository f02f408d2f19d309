//! The rows of a ring: where each record that it names lies, the newest row first.
ghost use Rattle.std.specs.Prelude.{◌≡◌, ◌<◌, ◌↔◌, [], ◌∷◌, ◌++◌, length, IsTrue, IfSome, MatchOption};
ghost use Rattle.ringlaws.specs.Layout.{home_block};
ghost use Rattle.checkpointing.specs.Rows.{place_in, NoneHome, Next};

use arrayvec::ArrayVec;
use std::marker::Model;

/// A record's number, and a place of the ring that holds its unit.
#[derive(Clone, Copy, Default)]
pub(crate) struct Row {
    pub(crate) number: u64,
    pub(crate) place: usize,
}

impl Row {
    /// The block that is home to the record.
    fn home(&self) -> usize
        ensures { result ≡ home_block self.now.number }
    {
        (self.number / 16) as usize
    }
}

/// Memory for the rows of any ring, taken once.
#[derive(Drop)]
pub struct Rows {
    list: ArrayVec<Row, 255>,
}

impl Model for Rows {
    ghost use Rattle.std.specs.Prelude.{List, ◌<◌, All};
    ghost use Rattle.checkpointing.specs.declared.rows.Row.{Row};

    ghost Value = { List Row };

    ghost view = { λ r. r.list.items };

    ghost invariant = { λ r. All (λ row. row.place < 255) r.list.items };
}

impl Rows {
    /// Room for the rows of any ring.
    pub fn new() -> Rows
        ensures { result ≡ [] }
    {
        Rows {
            list: ArrayVec::new(),
        }
    }

    /// Takes all rows away.
    pub(crate) fn clear(&mut self)
        ensures { self.new ≡ [] }
    {
        self.list.clear();
    }

    /// Adds a row behind the others.
    pub(crate) fn push(&mut self, row: Row)
        requires room { length self.old < 255 }
        requires place { row.place < 255 }
        ensures { self.new ≡ self.old ++ row ∷ [] }
    {
        self.list.push(row);
    }

    /// Whether there is no row.
    pub(crate) fn is_empty(&self) -> bool
        ensures { IsTrue result ↔ (self.now ≡ []) }
    {
        self.list.is_empty()
    }

    /// The place of a record, by the first row that has its number.
    pub(crate) fn place_of(&self, number: u64) -> Option<usize>
        ensures place { result ≡ place_in self.now number }
        ensures small { IfSome result (λ place. place < 255) }
    {
        self.list
            .iter()
            .find(|row| row.number == number)
            .map(|row| row.place)
    }

    /// The first block from `from` on, below `limit`, that is home to a record.
    pub(crate) fn next_block(&self, from: usize, limit: usize) -> Option<usize>
        ensures { MatchOption result (NoneHome self.now from limit) (Next self.now from limit) }
    {
        self.list
            .iter()
            .map(|row| row.home())
            .filter(|home| from <= *home && *home < limit)
            .min()
    }
}
