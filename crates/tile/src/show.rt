//! A tile as text.
ghost use Rattle.std.specs.Prelude.{Some};
ghost use Rattle.tile.specs.Texts.{tile_text};

use crate::record::Tile;
use std::fmt;

/// `tile`, the column, the row, the plan and the level of sample 0, with tabs between them.
impl fmt::Display for Tile {
    ghost output = { λ t. Some (tile_text t) };

    fn fmt<W: fmt::Write>(&self, f: &mut fmt::Formatter<W>) -> fmt::Result {
        let column = self.column;
        let row = self.row;
        let plan = self.plan;
        let first = self.levels[0];
        write!(f, "tile\t{column}\t{row}\t{plan}\t{first}")
    }
}
