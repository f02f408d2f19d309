//! Rows of flags, of marks and of numbers.
ghost use Rattle.std.specs.Prelude.{◌≡◌, ℕ, ◌<◌, ◌≤◌, false, length, get_or, take, if◌then◌else◌, filter, slice_index, slice_index_or};
ghost use Rattle.simulated.specs.Lists.{member, inside};

/// Gives the marks from `from` on, up to `to`, a value.
pub fn set_marks(marks: &mut [bool], from: usize, to: usize, value: bool)
    requires { (from ≤ to) × (to ≤ length marks.old) }
    ensures { (s : ℕ) → slice_index_or marks.new s false ≡ (if inside from to s then value else slice_index_or marks.old s false) }
{
    marks[from..to].fill(value);
}

/// Takes the flags of the listed numbers away.
// Kept: a function over a closure for this and `reflag`, which are one line each, would be longer than both.
pub(crate) fn unflag(flags: &mut [bool], queue: &[usize])
    requires { (k : ℕ) → k < length queue.now → slice_index queue.now k < length flags.old }
    ensures { (b : ℕ) → slice_index_or flags.new b false ≡ (if member b queue.now then false else slice_index_or flags.old b false) }
{
    for b in queue {
        flags[*b] = false;
    }
}

/// Gives each listed number the flag that `keep` has for it.
pub(crate) fn reflag(flags: &mut [bool], queue: &[usize], keep: &[bool])
    requires { (((k : ℕ) → k < length queue.now → slice_index queue.now k < length flags.old)) × (length keep.now ≡ length flags.old) }
    ensures { (b : ℕ) → slice_index_or flags.new b false ≡ (if member b queue.now then slice_index_or keep.now b false else slice_index_or flags.old b false) }
{
    for b in queue {
        flags[*b] = keep[*b];
    }
}
