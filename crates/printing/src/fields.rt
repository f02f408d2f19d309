//! The fields of a record, and of a detail.
ghost use Rattle.std.specs.Prelude.{◌≡◌, ◌∷◌, ◌++◌, decimal, OnOk};
ghost use Rattle.lines.specs.Splits.{tabbed};
ghost use Rattle.printing.specs.Texts.{tile_fields, mast_fields, record_fields, detail_fields};

use crate::detail::Detail;
use itoa::Buffer;
use joined::record::Joined;
use mast::record::Mast;
use std::alloc::AllocError;
use tile::record::Tile;

// Kept: `absent`, `tile` and `mast` are written as the fixed byte strings that a script's verbs are compared with, as the project's
// rules want them, and by no Display of a record.

/// Writes a number.
pub(crate) fn write_number(out: &mut Vec<u8>, number: u64) -> Result<(), AllocError>
    ensures { OnOk result (out.new.items ≡ out.old.items ++ decimal number) }
{
    let mut digits = Buffer::new();
    out.extend_from_slice(digits.format(number).as_bytes())
}

/// Writes a tab and a number.
fn write_next(out: &mut Vec<u8>, number: u64) -> Result<(), AllocError>
    ensures { OnOk result (out.new.items ≡ out.old.items ++ (9 ∷ decimal number)) }
{
    out.extend_from_slice(b"\t")?;
    write_number(out, number)
}

/// Writes a tile's verb, column, row, plan and the level of sample 0.
fn write_tile(out: &mut Vec<u8>, tile: &Tile) -> Result<(), AllocError>
    ensures { OnOk result (out.new.items ≡ out.old.items ++ tabbed (tile_fields tile.now)) }
{
    let column = tile.column();
    let row = tile.row();
    let plan = tile.plan();
    let level = tile.level(0).unwrap_or(0);
    out.extend_from_slice(b"tile")?;
    write_next(out, column)?;
    write_next(out, row)?;
    write_next(out, plan)?;
    let mut digits = Buffer::new();
    out.extend_from_slice(b"\t")?;
    out.extend_from_slice(digits.format(level).as_bytes())
}

/// Writes a mast's verb, number and name.
fn write_mast(out: &mut Vec<u8>, mast: &Mast) -> Result<(), AllocError>
    ensures { OnOk result (out.new.items ≡ out.old.items ++ tabbed (mast_fields mast.now)) }
{
    out.extend_from_slice(b"mast")?;
    write_next(out, mast.number())?;
    out.extend_from_slice(b"\t")?;
    out.extend_from_slice(mast.name())
}

/// Writes a record.
fn write_record(out: &mut Vec<u8>, value: &Joined) -> Result<(), AllocError>
    ensures { OnOk result (out.new.items ≡ out.old.items ++ tabbed (record_fields value.now)) }
{
    match value {
        Joined::Tile(tile) => write_tile(out, tile),
        Joined::Mast(mast) => write_mast(out, mast),
    }
}

/// Writes a detail: a dash for nothing.
pub fn write_detail(out: &mut Vec<u8>, detail: &Detail) -> Result<(), AllocError>
    ensures { OnOk result (out.new.items ≡ out.old.items ++ tabbed (detail_fields detail.now)) }
{
    match detail {
        Detail::Nothing => out.extend_from_slice(b"-"),
        Detail::Count(count) => write_number(out, *count),
        Detail::Absent => out.extend_from_slice(b"absent"),
        Detail::Record(value) => write_record(out, value),
    }
}
