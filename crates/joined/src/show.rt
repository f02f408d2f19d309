//! A tile or a mast as text.
ghost use Rattle.std.specs.Prelude.{Some};
ghost use Rattle.tile.specs.Texts.{tile_text};
ghost use Rattle.mast.specs.Texts.{mast_text};
ghost use Rattle.joined.specs.declared.record.Joined.TheVariants as joined;

use crate::record::Joined;
use std::fmt;

/// As the tile or the mast that it is.
impl fmt::Display for Joined {
    ghost output = { λ j. Some (elim j [ joined.Tile t ↦ tile_text t | joined.Mast m ↦ mast_text m ]) };

    fn fmt<W: fmt::Write>(&self, f: &mut fmt::Formatter<W>) -> fmt::Result {
        match self {
            Joined::Tile(tile) => write!(f, "{tile}"),
            Joined::Mast(mast) => write!(f, "{mast}"),
        }
    }
}
