//! The contents and the power of a simulated memory.
ghost use Rattle.std.specs.Prelude.{◌≡◌, ℕ, ◌*◌, vec_len};
ghost use Rattle.simulated.specs.Lists.{member};
ghost use Rattle.simulated.specs.Listing.{lines_of};
ghost use Rattle.nvm_words.specs.Cells.{cells_word, is_unsettled_line};

use crate::cell::Cell;
use simulated::pending::Pending;
use simulated::supply::Supply;

/// The words; the lines that hold an unsettled one, in the order in which they became so; and the power.
#[derive(Drop)]
pub struct Words {
    // Kept: the size is a field beside the words, since the clauses of callers are stated by it.
    pub(crate) units: usize,
    pub(crate) supply: Supply,
    pub(crate) cells: Vec<Cell>,
    // Kept: a fence takes no memory, so the room to note which lines still hold an unsettled word is here.
    pub(crate) holds: Vec<bool>,
    pub(crate) pending: Pending,
    ghost cells_long: { vec_len cells ≡ 32 * units },
    ghost holds_long: { vec_len holds ≡ 4 * units },
    ghost covers: { pending.size ≡ 4 * units },
    ghost exact: { (l : ℕ) → member l (lines_of pending) ≡ is_unsettled_line (cells_word cells.items) l },
}
