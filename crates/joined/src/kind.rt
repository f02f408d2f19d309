//! The tile kind and the mast kind joined. Its laws follow from theirs and from word 0.
ghost use Rattle.std.specs.Prelude.{◌≡◌};
ghost use Rattle.std.proofs.Math.Path.{refl};
ghost use Rattle.joined.specs.Joins.{joined_unit, joined_reads};
ghost use Rattle.tile.specs.Tiles.{level_words};
ghost use Rattle.mast.specs.Masts.{name_words};
ghost use Rattle.joined.specs.declared.record.Joined.TheVariants.{Tile, Mast};
ghost use Rattle.joined.specs.Laws;
ghost use Rattle.std.proofs.Common.{rules};

use crate::record::Joined;
use kinds::kind::RecordKind;
use mast::kind::MastKind;
use tile::kind::TileKind;

/// The kind of records that are tiles or masts.
pub struct JoinedKind;

impl RecordKind for JoinedKind {
    type Record = Joined;

    ghost unit = { joined_unit };

    ghost reads = { joined_reads };

    ghost whole = { unfold level_words name_words in elim [ Tile t ↦ refl | Mast m ↦ refl ] };

    ghost nonzero = { Prim.search rules };

    ghost back = { Laws.back };

    ghost only = { Laws.only };

    fn encode(value: &Joined, place: &mut [u64; 32]) {
        match value {
            Joined::Tile(tile) => TileKind::encode(tile, place),
            Joined::Mast(mast) => MastKind::encode(mast, place),
        }
    }

    fn decode(words: &[u64; 32]) -> Option<Joined> {
        if words[0] == 1 {
            TileKind::decode(words).map(Joined::from)
        } else {
            MastKind::decode(words).map(Joined::from)
        }
    }
}
