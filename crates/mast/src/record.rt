//! The mast record. Its ranges are in the type: no mast outside them can exist.
ghost use Rattle.std.specs.Prelude.{◌≡◌, ℕ, ◌≤◌, true, length, take, slice_index};
ghost use Rattle.mast.specs.Names.{is_name};

/// A mast: its number, and its name of 1 to 232 bytes of printed ASCII. The name is the first `size` bytes; those after it
/// are zero.
// Kept: `arrayvec`'s vector is not `Copy`, and its text has spare bytes of which no clause speaks, so that no unit reads as one mast.
#[derive(Clone, Copy, PartialEq, Eq, Debug)]
pub struct Mast {
    pub(crate) number: u64,
    pub(crate) size: usize,
    pub(crate) bytes: [u8; 232],
    ghost whole: { length bytes ≡ 232 },
    ghost most: { size ≤ 232 },
    ghost named: { is_name (take size bytes) ≡ true },
    ghost padded: { (j : ℕ) → size ≤ j → slice_index bytes j ≡ 0 },
}
