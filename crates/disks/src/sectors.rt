//! Rows of words and of marks: what is done to a sector or a block of them.
ghost use Rattle.std.specs.Prelude.{◌≡◌, ℕ, ◌+◌, ◌-◌, ◌*◌, ◌/◌, ◌<◌, ◌≤◌, false, ◌&&◌, length, get_or, if◌then◌else◌, nat_eq, slice_index, slice_index_or};
ghost use Rattle.device.specs.Sectors.{any_below};
ghost use Rattle.simulated.specs.Lists.{member};
ghost use Rattle.disks.specs.Rows.{goes_back};

use device::comeback::Comeback;
use simulated::rows::set_marks;
use simulated::taking::takes_new;

// Kept: functions over rows and no methods of a struct that holds them, since `list_marked` has the marks alone, before there is a disk.

/// Whether one of a block's sectors waits.
pub(crate) fn any_waits(waiting: &[bool], block: usize) -> bool
    requires { 8 * block + 8 ≤ length waiting.now }
    ensures { result ≡ any_below (λ k. get_or waiting.now (8 * block + k) false) 8 }
{
    waiting[8 * block..8 * block + 8].contains(&true)
}

/// Takes the marks of each listed block away.
pub(crate) fn clear_marks(waiting: &mut [bool], queue: &[usize])
    requires { (k : ℕ) → k < length queue.now → 8 * slice_index queue.now k + 8 ≤ length waiting.old }
    ensures { (s : ℕ) → slice_index_or waiting.new s false ≡ (if member (s / 8) queue.now then false else slice_index_or waiting.old s false) }
{
    for block in queue {
        set_marks(waiting, 8 * *block, 8 * *block + 8, false);
    }
}

/// Keeps the present words of a block as the settled ones, and gives it new present words.
pub(crate) fn renew(settled: &mut [u64], present: &mut [u64], block: usize, buf: &[u64; 512])
    requires { (512 * block + 512 ≤ length settled.old) × (512 * block + 512 ≤ length present.old) }
    ensures settled { (w : ℕ) → slice_index settled.new w ≡ (if nat_eq (w / 512) block then slice_index present.old w else slice_index settled.old w) }
    ensures present { (w : ℕ) → slice_index present.new w ≡ (if nat_eq (w / 512) block then slice_index buf.now (w - 512 * block) else slice_index present.old w) }
{
    let from = 512 * block;
    settled[from..from + 512].copy_from_slice(&present[from..from + 512]);
    present[from..from + 512].copy_from_slice(buf);
}

/// Copies a block's words into a buffer.
pub(crate) fn copy_out(words: &[u64], block: usize, buf: &mut [u64; 512])
    requires { 512 * block + 512 ≤ length words.now }
    ensures { (j : ℕ) → j < 512 → slice_index buf.new j ≡ slice_index words.now (512 * block + j) }
{
    let from = 512 * block;
    buf.copy_from_slice(&words[from..from + 512]);
}

/// Gives a sector its settled words again.
pub(crate) fn revert_sector(settled: &[u64], present: &mut [u64], sector: usize)
    requires { (64 * sector + 64 ≤ length settled.now) × (64 * sector + 64 ≤ length present.old) }
    ensures { (w : ℕ) → slice_index present.new w ≡ (if nat_eq (w / 64) sector then slice_index settled.now w else slice_index present.old w) }
{
    let from = 64 * sector;
    present[from..from + 64].copy_from_slice(&settled[from..from + 64]);
}

/// Whether a sector goes back to its settled words: it waits, and does not come back new.
fn goes_back(waiting: &[bool], how: &Comeback, sector: usize) -> bool
    requires { sector < length waiting.now }
    ensures { result ≡ goes_back waiting.now how.now sector }
{
    waiting[sector] && !takes_new(how, sector)
}

/// Gives the sectors of a block that wait and do not come back new their settled words again.
pub(crate) fn revert_block(
    settled: &[u64],
    present: &mut [u64],
    waiting: &[bool],
    how: &Comeback,
    block: usize,
)
    requires { (512 * block + 512 ≤ length settled.now) × ((512 * block + 512 ≤ length present.old) × (8 * block + 8 ≤ length waiting.now)) }
    ensures { (w : ℕ) → slice_index present.new w ≡ (if nat_eq (w / 512) block && goes_back waiting.now how.now (w / 64) then slice_index settled.now w else slice_index present.old w) }
{
    for sector in 8 * block..8 * block + 8 {
        if goes_back(waiting, how, sector) {
            revert_sector(settled, present, sector);
        }
    }
}

/// The same for each listed block.
pub(crate) fn revert(
    settled: &[u64],
    present: &mut [u64],
    waiting: &[bool],
    how: &Comeback,
    queue: &[usize],
)
    requires { (length settled.now ≡ 64 * length waiting.now) × ((length present.old ≡ 64 * length waiting.now) × (((k : ℕ) → k < length queue.now → 8 * slice_index queue.now k + 8 ≤ length waiting.now))) }
    ensures { (w : ℕ) → slice_index present.new w ≡ (if member (w / 512) queue.now && goes_back waiting.now how.now (w / 64) then slice_index settled.now w else slice_index present.old w) }
{
    for block in queue {
        revert_block(settled, present, waiting, how, *block);
    }
}
