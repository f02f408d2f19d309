//! The words are made of lists, or all zero. This takes all the memory that they ever need.
ghost use Rattle.std.specs.Prelude.{◌≡◌, ℕ, ◌*◌, ◌/◌, ◌<◌, ◌≤◌, [], length, filter, vec_len, MatchResult};
ghost use Rattle.std.specs.List.{range_with_len};
ghost use Rattle.refusal.specs.declared.reason.Refusal.TheVariants.{NoMemory};
ghost use Rattle.simulated.specs.Listing.{lines_of};
ghost use Rattle.nvm_words.specs.Marks.{words_in};
ghost use Rattle.nvm_words.specs.Cells.{cells_word, is_unsettled_line};
ghost use Rattle.nvm_words.specs.Made.{MadeOf, Made, Zeroed};

use crate::cell::Cell;
use crate::mark::Mark;
use crate::rows::any_unsettled;
use crate::words::Words;
use refusal::reason::Refusal;
use simulated::pending::Pending;
use simulated::supply::Supply;
use std::alloc::Global;

/// Fills the words from lists of settled values, of present values and of marks.
fn fill(cells: &mut [Cell], settled: &[u64], present: &[u64], marks: &[Mark])
    requires { (length cells.old ≤ length settled.now) × ((length cells.old ≤ length present.now) × (length cells.old ≤ length marks.now)) }
    ensures { (w : ℕ) → w < length cells.old → cells_word cells.new w ≡ words_in settled.now present.now marks.now w }
{
    for (word, cell) in cells.iter_mut().enumerate() {
        *cell = Cell::new(settled[word], present[word], marks[word]);
    }
}

/// Lists the lines that hold an unsettled word, in ascending order.
fn list_unsettled(pending: &mut Pending, cells: &[Cell])
    requires { (length cells.now ≡ 8 * pending.old.size) × (lines_of pending.old ≡ []) }
    ensures size { pending.new.size ≡ pending.old.size }
    ensures lines { lines_of pending.new ≡ filter (is_unsettled_line (cells_word cells.now)) (range_with_len 0 (length cells.now / 8)) }
{
    for line in 0..cells.len() / 8 {
        if any_unsettled(cells, line) {
            pending.add(line);
        }
    }
}

impl Words {
    /// Some units of these words, with power for a number of acts.
    fn made(heap: Global, units: usize, cells: Vec<Cell>, acts: u64) -> Result<Words, Refusal>
        requires { vec_len cells ≡ 32 * units }
        ensures { MatchResult result (λ n. MadeOf units (cells_word cells.items) acts n) (λ e. e ≡ NoMemory) }
    {
        let holds = vec![in heap; false; 4 * units]?;
        let mut pending = Pending::new(heap, 4 * units)?;
        list_unsettled(&mut pending, cells.as_slice());
        Ok(Words {
            units,
            supply: Supply::new(acts),
            cells,
            holds,
            pending,
        })
    }

    /// The whole units in the shortest of the lists, with power for a number of acts. A word that is marked settled has its
    /// present value, whatever the other list says.
    pub fn new(
        heap: Global,
        settled: Vec<u64>,
        present: Vec<u64>,
        marks: Vec<Mark>,
        acts: u64,
    ) -> Result<Words, Refusal>
        ensures { MatchResult result (λ n. Made settled.items present.items marks.items acts n) (λ e. e ≡ NoMemory) }
    {
        let units = settled.len().min(present.len()).min(marks.len()) / 32;
        let mut cells = vec![in heap; Cell::Settled(0); 32 * units]?;
        fill(
            cells.as_mut_slice(),
            settled.as_slice(),
            present.as_slice(),
            marks.as_slice(),
        );
        Words::made(heap, units, cells, acts)
    }

    /// Some units, settled at zero.
    pub fn zeroed(heap: Global, units: usize, acts: u64) -> Result<Words, Refusal>
        ensures { MatchResult result (λ n. Zeroed units acts n) (λ e. e ≡ NoMemory) }
    {
        if units > usize::MAX / 32 {
            return Err(Refusal::NoMemory);
        }
        let cells = vec![in heap; Cell::Settled(0); 32 * units]?;
        Words::made(heap, units, cells, acts)
    }
}
