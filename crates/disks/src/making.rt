//! A simulated disk is made of lists.
ghost use Rattle.std.specs.Prelude.{◌≡◌, ℕ, ◌*◌, ◌/◌, true, false, length, MatchResult, slice_index_or};
ghost use Rattle.refusal.specs.declared.reason.Refusal.TheVariants.{NoMemory};
ghost use Rattle.simulated.specs.Lists.{member};
ghost use Rattle.simulated.specs.Listing.{lines_of};
ghost use Rattle.disks.specs.State.{disk_state, made_of, blank};

use crate::contents::Contents;
use crate::sectors::any_waits;
use refusal::reason::Refusal;
use simulated::pending::Pending;
use simulated::supply::Supply;
use std::alloc::Global;

/// Lists each block that has a mark.
// Kept: a block is looked at and listed by its number; chunks of marks with their numbers would be no plainer.
fn list_marked(pending: &mut Pending, waiting: &[bool])
    requires { length waiting.now ≡ 8 * pending.old.size }
    ensures size { pending.new.size ≡ pending.old.size }
    ensures listed { (s : ℕ) → slice_index_or waiting.now s false ≡ true → member (s / 8) (lines_of pending.new) ≡ true }
{
    for block in 0..waiting.len() / 8 {
        if any_waits(waiting, block) {
            pending.add(block);
        }
    }
}

impl Contents {
    /// The whole blocks in the shortest of the lists, with power for a number of acts.
    pub(crate) fn new(
        heap: Global,
        mut settled: Vec<u64>,
        mut present: Vec<u64>,
        mut waiting: Vec<bool>,
        acts: u64,
    ) -> Result<Contents, Refusal>
        ensures { MatchResult result (λ d. disk_state d ≡ made_of settled.items present.items waiting.items acts) (λ e. e ≡ NoMemory) }
    {
        let blocks = (settled.len() / 512)
            .min(present.len() / 512)
            .min(waiting.len() / 8);
        settled.truncate(512 * blocks);
        present.truncate(512 * blocks);
        waiting.truncate(8 * blocks);
        let mut pending = Pending::new(heap, blocks)?;
        list_marked(&mut pending, waiting.as_slice());
        Ok(Contents {
            blocks,
            supply: Supply::new(acts),
            settled,
            present,
            waiting,
            pending,
        })
    }

    /// Blocks of zeros, all settled.
    pub(crate) fn zeroed(heap: Global, blocks: usize, acts: u64) -> Result<Contents, Refusal>
        ensures { MatchResult result (λ d. disk_state d ≡ blank blocks acts) (λ e. e ≡ NoMemory) }
    {
        let words = blocks.checked_mul(512).ok_or(Refusal::NoMemory)?;
        let settled = vec![in heap; 0; words]?;
        let present = vec![in heap; 0; words]?;
        let waiting = vec![in heap; false; 8 * blocks]?;
        Contents::new(heap, settled, present, waiting, acts)
    }
}
