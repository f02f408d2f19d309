//! How lines settle to make room for others.
ghost use Rattle.std.specs.Prelude.{◌*◌, ◌<◌, IfSome};
ghost use Rattle.nvm_words.specs.Meant.{unsettled_lines, Became};
ghost use Rattle.nvms.specs.Natures.{room_made, room_for, surplus_settled, surplus_left};

use nvm_words::words::Words;

/// Settles the line that became unsettled earliest, if a store into this line would make one too many.
pub(crate) fn make_room(words: &mut Words, limit: Option<usize>, line: usize)
    requires within { line < 4 * words.old.units }
    requires room { IfSome limit (λ most. 0 < most) }
    ensures { Became words.old.supply (room_made limit (unsettled_lines words.old) line) (room_for limit (unsettled_lines words.old) line) words.old words.new }
{
    let Some(most) = limit else { return };
    if !words.holds_unsettled(line) && words.unsettled_lines().len() >= most {
        words.settle_oldest();
    }
}

/// Settles the earliest lines until no more are left than the limit allows.
pub(crate) fn settle_surplus(words: &mut Words, limit: Option<usize>)
    ensures { Became words.old.supply (surplus_settled limit (unsettled_lines words.old)) (surplus_left limit (unsettled_lines words.old)) words.old words.new }
{
    let Some(most) = limit else { return };
    let surplus = words.unsettled_lines().len().saturating_sub(most);
    for _i in 0..surplus {
        words.settle_oldest();
    }
}
