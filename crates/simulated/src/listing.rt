//! What is done with the list of lines or blocks.
ghost use Rattle.std.specs.Prelude.{◌≡◌, ◌<◌, false, [], length, filter, MatchResult, slice_index_or};
ghost use Rattle.refusal.specs.declared.reason.Refusal.TheVariants.{NoMemory};
ghost use Rattle.simulated.specs.Lists.{member};
ghost use Rattle.simulated.specs.Listing.{lines_of, with_line, without_first};

use crate::pending::Pending;
use crate::rows::{reflag, unflag};
use refusal::reason::Refusal;
use std::alloc::Global;

impl Pending {
    /// An empty list with room for all numbers below `size`.
    pub fn new(heap: Global, size: usize) -> Result<Pending, Refusal>
        ensures { MatchResult result (λ p. (p.size ≡ size) × (lines_of p ≡ [])) (λ e. e ≡ NoMemory) }
    {
        let flags = vec![in heap; false; size]?;
        let queue = Vec::with_capacity(heap, size)?;
        Ok(Pending { size, flags, queue })
    }

    /// The numbers in the order in which they came.
    pub fn as_slice(&self) -> &[usize]
        ensures { result.now ≡ lines_of self.now }
    {
        self.queue.as_slice()
    }

    /// Whether a number is listed.
    pub fn contains(&self, b: usize) -> bool
        requires { b < self.now.size }
        ensures { result ≡ member b (lines_of self.now) }
    {
        self.flags[b]
    }

    /// Adds a number at the end; one that is listed keeps its place.
    pub fn add(&mut self, b: usize)
        requires { b < self.old.size }
        ensures size { self.new.size ≡ self.old.size }
        ensures lines { lines_of self.new ≡ with_line (lines_of self.old) b }
    {
        if !self.flags[b] {
            self.flags[b] = true;
            self.queue.push_reserved(b);
        }
    }

    /// Forgets all numbers.
    pub fn clear(&mut self)
        ensures size { self.new.size ≡ self.old.size }
        ensures lines { lines_of self.new ≡ [] }
    {
        unflag(self.flags.as_mut_slice(), self.queue.as_slice());
        self.queue.clear();
    }

    /// Takes the number that came earliest away.
    pub fn remove_first(&mut self)
        ensures size { self.new.size ≡ self.old.size }
        ensures lines { lines_of self.new ≡ without_first (lines_of self.old) }
    {
        if !self.queue.is_empty() {
            let b = self.queue.remove(0);
            self.flags[b] = false;
        }
    }

    /// Keeps the numbers whose mark is set, in their order.
    pub fn retain(&mut self, keep: &[bool])
        requires { length keep.now ≡ self.old.size }
        ensures size { self.new.size ≡ self.old.size }
        ensures lines { lines_of self.new ≡ filter (λ b. slice_index_or keep.now b false) (lines_of self.old) }
    {
        reflag(self.flags.as_mut_slice(), self.queue.as_slice(), keep);
        self.queue.retain(|b| matches!(keep.get(*b), Some(true)));
    }
}
