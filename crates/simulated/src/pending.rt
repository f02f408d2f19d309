//! The list of lines or blocks that may hold something unsettled.
ghost use Rattle.std.specs.Prelude.{◌≡◌, ℕ, ◌≤◌, true, false, vec_len, vec_capacity, slice_index_or};
ghost use Rattle.simulated.specs.Lists.{member, distinct};

/// Some of the numbers below `size`, each at most once, in the order in which they came, with room for all of them: a flag
/// for each number, and a queue of those that are flagged.
// Kept: the kit's set in insertion order could run out of memory at an insert, and no act may; the flags take none.
#[derive(Drop)]
pub struct Pending {
    pub(crate) size: usize,
    pub(crate) flags: Vec<bool>,
    pub(crate) queue: Vec<usize>,
    ghost long: { vec_len flags ≡ size },
    ghost room: { size ≤ vec_capacity queue },
    ghost flagged: { (b : ℕ) → slice_index_or flags.items b false ≡ member b queue.items },
    ghost once: { distinct queue.items ≡ true },
}
