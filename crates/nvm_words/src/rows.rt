//! Rows of words.
ghost use Rattle.std.specs.Prelude.{◌≡◌, ℕ, ◌+◌, ◌*◌, ◌<◌, ◌≤◌, true, false, length, slice_index, slice_index_or};
ghost use Rattle.device.specs.Words.{Word};
ghost use Rattle.simulated.specs.Lists.{member};
ghost use Rattle.nvm_words.specs.Cells.{cells_word, is_unsettled_line, Makes, Steady, Within, Among};

use crate::cell::Cell;

/// Whether one of the eight words of a line is unsettled.
pub(crate) fn any_unsettled(cells: &[Cell], line: usize) -> bool
    requires { 8 * line + 8 ≤ length cells.now }
    ensures { result ≡ is_unsettled_line (cells_word cells.now) line }
{
    cells[8 * line..8 * line + 8]
        .iter()
        .any(|cell| cell.is_unsettled())
}

/// Changes the words of a line.
pub(crate) fn change_line<F: Fn(usize, &mut Cell)>(cells: &mut [Cell], line: usize, change: &F)
    requires within { 8 * line + 8 ≤ length cells.old }
    requires callable { F.IsAlwaysCallable change.now }
    ensures { (makes : ℕ → Word → Word) → Makes (F.post change.now) makes → Within (8 * line) (8 * line + 8) makes cells.old cells.new }
{
    for (place, cell) in cells[8 * line..8 * line + 8].iter_mut().enumerate() {
        change(8 * line + place, cell);
    }
}

/// Changes the words of the listed lines.
pub(crate) fn change_lines<F: Fn(usize, &mut Cell)>(cells: &mut [Cell], lines: &[usize], change: &F)
    requires within { (k : ℕ) → k < length lines.now → 8 * slice_index lines.now k + 8 ≤ length cells.old }
    requires callable { F.IsAlwaysCallable change.now }
    ensures { (makes : ℕ → Word → Word) → Makes (F.post change.now) makes → Steady makes → Among lines.now makes cells.old cells.new }
{
    for line in lines {
        change_line(cells, *line, change);
    }
}

/// Notes of each listed line whether it holds an unsettled word.
pub(crate) fn note_lines(holds: &mut [bool], cells: &[Cell], lines: &[usize])
    requires within { (k : ℕ) → k < length lines.now → 8 * slice_index lines.now k + 8 ≤ length cells.now }
    requires room { (k : ℕ) → k < length lines.now → slice_index lines.now k < length holds.old }
    ensures { (l : ℕ) → member l lines.now ≡ true → slice_index_or holds.new l false ≡ is_unsettled_line (cells_word cells.now) l }
{
    for line in lines {
        holds[*line] = any_unsettled(cells, *line);
    }
}
