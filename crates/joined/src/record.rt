//! A tile or a mast.
ghost use Rattle.std.specs.Prelude.{◌≡◌};

use mast::record::Mast;
use tile::record::Tile;

/// A record of either kind.
#[derive(Clone, Copy, PartialEq, Eq, Debug)]
pub enum Joined {
    Tile(Tile),
    Mast(Mast),
}

impl From<Tile> for Joined {
    ghost use Rattle.joined.specs.declared.record.Joined.TheVariants as joined;

    ghost from_gives = { λ tile made. made ≡ joined.Tile tile };

    fn from(tile: Tile) -> Joined {
        Joined::Tile(tile)
    }
}

impl From<Mast> for Joined {
    ghost use Rattle.joined.specs.declared.record.Joined.TheVariants as joined;

    ghost from_gives = { λ mast made. made ≡ joined.Mast mast };

    fn from(mast: Mast) -> Joined {
        Joined::Mast(mast)
    }
}
