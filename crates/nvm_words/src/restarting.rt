//! Power returns.
ghost use Rattle.std.specs.Prelude.{◌≡◌, []};
ghost use Rattle.simulated.specs.Natures.{returned};
ghost use Rattle.nvm_words.specs.Meant.{simulated_nvm, unsettled_lines};

use crate::cell::Cell;
use crate::rows::change_lines;
use crate::words::Words;
use device::comeback::Comeback;
use simulated::taking::takes_new;

impl Words {
    /// Power returns for a number of acts: each unsettled word takes its settled or its present value, as `how` says, and is
    /// settled.
    pub fn restart(&mut self, how: &Comeback, acts: u64)
        ensures state { simulated_nvm self.new ≡ returned how.now acts (simulated_nvm self.old) }
        ensures lines { unsettled_lines self.new ≡ [] }
    {
        change_lines(
            self.cells.as_mut_slice(),
            self.pending.as_slice(),
            &|word, cell: &mut Cell| cell.come_back(takes_new(how, word)),
        );
        self.pending.clear();
        self.supply.restore(acts);
    }
}
