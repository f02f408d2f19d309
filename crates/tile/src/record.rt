//! The tile record. Its ranges are in the type: no tile outside them can exist.
ghost use Rattle.std.specs.Prelude.{◌≡◌, ◌≤◌, true, length};
ghost use Rattle.std.specs.List.{list_all};
ghost use Rattle.tile.specs.Ranges.{is_level};

/// A tile of a coverage plan: its column and row, each at most 65,535, the number of the plan that computed it, and the
/// levels of its 112 samples in tenths of a dBm.
#[derive(Clone, Copy, PartialEq, Eq, Debug)]
pub struct Tile {
    pub(crate) column: u64,
    pub(crate) row: u64,
    pub(crate) plan: u64,
    pub(crate) levels: [i16; 112],
    ghost across: { column ≤ 65535 },
    ghost down: { row ≤ 65535 },
    ghost whole: { length levels ≡ 112 },
    ghost ranged: { list_all is_level levels ≡ true },
}
