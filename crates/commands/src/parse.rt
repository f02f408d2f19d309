//! Reading a line as a command.
ghost use Rattle.std.specs.Prelude.{◌≡◌};
ghost use Rattle.std.specs.Option.{option_map};
ghost use Rattle.lines.specs.Pieces.{fields_of};
ghost use Rattle.commands.specs.Commands.{asked, asked_with, ordered, mast_in, tile_in, restart_in, command_of};

use crate::command::{Command, Contents, Draft, Order};
use crate::verb::Verb;
use lines::fields::{field_at, level_at, word_at};
use lines::split::has_fields;

/// The mast that a line asks for.
pub fn mast_in(line: &[u8]) -> Option<Order<'_>>
    ensures { option_map ordered result ≡ mast_in (fields_of line.now) }
{
    let record = word_at(line, 1)?;
    let number = word_at(line, 2)?;
    let name = field_at(line, 3);
    let draft = Draft::Mast { number, name };
    Some(Order { record, draft })
}

/// The tile that a line asks for.
pub fn tile_in(line: &[u8]) -> Option<Order<'_>>
    ensures { option_map ordered result ≡ tile_in (fields_of line.now) }
{
    let record = word_at(line, 1)?;
    let column = word_at(line, 2)?;
    let row = word_at(line, 3)?;
    let plan = word_at(line, 4)?;
    let level = level_at(line, 5)?;
    let draft = Draft::Tile {
        column,
        row,
        plan,
        level,
    };
    Some(Order { record, draft })
}

/// The restart that a line asks for.
fn restart_in(line: &[u8]) -> Option<Command<'_>>
    ensures { option_map asked result ≡ restart_in (fields_of line.now) }
{
    let contents = Contents::try_from(field_at(line, 1)).ok()?;
    let nvm_acts = word_at(line, 2)?;
    let disk_acts = word_at(line, 3)?;
    Some(Command::Restart {
        contents,
        nvm_acts,
        disk_acts,
    })
}

/// What a line with this verb asks for.
fn command_with(verb: Verb, line: &[u8]) -> Option<Command<'_>>
    ensures { option_map asked result ≡ asked_with verb (fields_of line.now) }
{
    match verb {
        Verb::Format => Some(Command::Format),
        Verb::Mount => Some(Command::Mount),
        Verb::Begin => Some(Command::Begin),
        Verb::Commit => Some(Command::Commit),
        Verb::Abandon => Some(Command::Abandon),
        Verb::Checkpoint => Some(Command::Checkpoint),
        Verb::Close => Some(Command::Close),
        Verb::Clear => Some(Command::Clear(word_at(line, 1)?)),
        Verb::Show => Some(Command::Show(word_at(line, 1)?)),
        Verb::Mast => Some(mast_in(line)?.into()),
        Verb::Tile => Some(tile_in(line)?.into()),
        Verb::Restart => restart_in(line),
    }
}

/// The command that a line gives, or none where it has another form.
pub fn parse(line: &[u8]) -> Option<Command<'_>>
    ensures { option_map asked result ≡ command_of line.now }
{
    let verb = Verb::try_from(field_at(line, 0)).ok()?;
    if !has_fields(line, verb.fields()) {
        return None;
    }
    command_with(verb, line)
}
