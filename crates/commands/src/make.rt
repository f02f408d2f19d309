//! Making the record that a command asks for.
ghost use Rattle.std.specs.Prelude.{◌≡◌, Some, MatchResult};
ghost use Rattle.commands.specs.Commands.{wanted};
ghost use Rattle.commands.specs.Records.{why_not, Fulfils};

use crate::command::Draft;
use joined::record::Joined;
use mast::record::Mast;
use refusal::reason::Refusal;
use tile::record::Tile;

/// The record with these fields, or why there is none.
pub fn make(draft: Draft<'_>) -> Result<Joined, Refusal>
    ensures { MatchResult result (Fulfils (wanted draft.entry)) (λ why. why_not (wanted draft.entry) ≡ Some why) }
{
    let record = match draft {
        Draft::Tile {
            column,
            row,
            plan,
            level,
        } => Tile::flat(column, row, plan, level)?.into(),
        Draft::Mast { number, name } => Mast::new(number, name)?.into(),
    };
    Ok(record)
}
