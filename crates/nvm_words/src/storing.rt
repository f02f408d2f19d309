//! What happens to the words when an act is performed.
ghost use Rattle.std.specs.Prelude.{◌≡◌, ℕ, ◌*◌, ◌/◌, ◌<◌, false, length, filter, slice_index};
ghost use Rattle.device.specs.Pieces.{is_unsettled};
ghost use Rattle.device.specs.Words.{Store, Flush, Fence, nvm_makes};
ghost use Rattle.simulated.specs.Listing.{with_line, without_first};
ghost use Rattle.nvm_words.specs.Meant.{meant, unsettled_lines, is_unsettled_line, line_settled, Became};

use crate::cell::Cell;
use crate::rows::{change_line, change_lines, note_lines};
use crate::words::Words;

impl Words {
    /// Gives a settled word a new present value and makes it waiting.
    pub fn put(&mut self, word: usize, value: u64)
        requires { (word < 32 * self.old.units) × (is_unsettled ((meant self.old).piece word) ≡ false) }
        ensures { Became self.old.supply (nvm_makes (Store word value)) (with_line (unsettled_lines self.old) (word / 8)) self.old self.new }
    {
        let old = self.cells[word].settled();
        self.cells[word] = Cell::Waiting { old, new: value };
        self.pending.add(word / 8);
    }

    /// Settles the line that became unsettled earliest.
    pub fn settle_oldest(&mut self)
        requires { 0 < length (unsettled_lines self.old) }
        ensures { Became self.old.supply (line_settled (slice_index (unsettled_lines self.old) 0)) (without_first (unsettled_lines self.old)) self.old self.new }
    {
        let lines = self.pending.as_slice();
        let line = lines[0];
        change_line(
            self.cells.as_mut_slice(),
            line,
            &|_, cell: &mut Cell| cell.come_back(true),
        );
        self.pending.remove_first();
    }

    /// Flushes a line. One that holds no unsettled word stays as it is.
    pub(crate) fn flush_line(&mut self, line: usize)
        requires { line < 4 * self.old.units }
        ensures { Became self.old.supply (nvm_makes (Flush line)) (unsettled_lines self.old) self.old self.new }
    {
        if self.holds_unsettled(line) {
            change_line(
                self.cells.as_mut_slice(),
                line,
                &|_, cell: &mut Cell| cell.flush(),
            );
        }
    }

    /// Settles the flushed words. A line that still holds a waiting word keeps its age.
    pub(crate) fn fence_lines(&mut self)
        ensures { Became self.old.supply (nvm_makes Fence) (filter (is_unsettled_line (λ w. nvm_makes Fence w ((meant self.old).piece w))) (unsettled_lines self.old)) self.old self.new }
    {
        change_lines(
            self.cells.as_mut_slice(),
            self.pending.as_slice(),
            &|_, cell: &mut Cell| cell.fence(),
        );
        note_lines(
            self.holds.as_mut_slice(),
            self.cells.as_slice(),
            self.pending.as_slice(),
        );
        self.pending.retain(self.holds.as_slice());
    }
}
