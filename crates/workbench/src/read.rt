//! Reading a line as an order.
ghost use Rattle.std.specs.Prelude.{◌≡◌};
ghost use Rattle.std.specs.Option.{option_map};
ghost use Rattle.lines.specs.Pieces.{fields_of};
ghost use Rattle.workbench.specs.Orders.{asked, asked_by, is_form};

use crate::order::Order;
use commands::parse::{mast_in, tile_in};
use lines::fields::field_at;
use lines::split::has_fields;

/// The verbs that a line can begin with, and how many fields its line has.
const TILE: &[u8] = b"tile";

const TILE_FIELDS: usize = 6;

const MAST: &[u8] = b"mast";

const MAST_FIELDS: usize = 4;

/// Whether the line has so many fields, and the first is the verb.
fn is_form(line: &[u8], verb: &[u8], count: usize) -> bool
    ensures { result ≡ is_form verb.now count (fields_of line.now) }
{
    has_fields(line, count) && field_at(line, 0) == verb
}

/// The order that a line gives, or none where it has another form.
pub fn order_in(line: &[u8]) -> Option<Order<'_>>
    ensures { option_map asked result ≡ asked_by (fields_of line.now) }
{
    if is_form(line, TILE, TILE_FIELDS) {
        return tile_in(line);
    }
    if is_form(line, MAST, MAST_FIELDS) {
        return mast_in(line);
    }
    None
}
