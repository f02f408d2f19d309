//! What both simulated disks are made of.
ghost use Rattle.std.specs.Prelude.{◌≡◌, ℕ, ◌*◌, ◌/◌, true, false, vec_len, slice_index_or};
ghost use Rattle.simulated.specs.Lists.{member};
ghost use Rattle.simulated.specs.Listing.{lines_of};

use simulated::pending::Pending;
use simulated::supply::Supply;

/// Blocks of 512 words with their power: the present words, the settled words of the sectors that wait, a mark for each
/// sector that waits, and the list of the blocks that may have one. The settled words of a sector that does not wait are not
/// read.
// Kept: with a struct for each sector `new` would have to copy the rows that it takes over, and a block would be eight copies.
#[derive(Drop)]
pub struct Contents {
    pub(crate) blocks: usize,
    pub(crate) supply: Supply,
    pub(crate) settled: Vec<u64>,
    pub(crate) present: Vec<u64>,
    pub(crate) waiting: Vec<bool>,
    pub(crate) pending: Pending,
    ghost olds: { vec_len settled ≡ 512 * blocks },
    ghost news: { vec_len present ≡ 512 * blocks },
    ghost eights: { vec_len waiting ≡ 8 * blocks },
    ghost lists: { pending.size ≡ blocks },
    ghost listed: { (s : ℕ) → slice_index_or waiting.items s false ≡ true → member (s / 8) (lines_of pending) ≡ true },
}
