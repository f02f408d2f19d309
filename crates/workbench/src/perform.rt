//! The line runner: what a line asks for is done, and answered.
ghost use Rattle.std.specs.Prelude.{◌≡◌, length, Some};
ghost use Rattle.lines.specs.Pieces.{fields_of};
ghost use Rattle.workbench.specs.Orders.{asked, asked_by};
ghost use Rattle.workbench.specs.Answers.{Answered, Kept, input_checked};

use crate::answer::{Answer, Complaint, Done};
use crate::order::Order;
use crate::read::order_in;
use crate::write::write_and_read;
use commands::make::make;
use joined::kind::JoinedKind;
use joined::record::Joined;

/// Writes a record as a unit and reads the unit back.
fn keep(number: u64, value: Joined) -> Done
    ensures { Kept number value result }
{
    let trip = write_and_read::<JoinedKind>(&value);
    Done { number, trip }
}

/// Does what an order asks for.
fn perform(order: Order<'_>) -> Answer
    ensures { Answered (Some (asked order.entry)) result }
{
    let value = make(order.draft)?;
    Ok(keep(order.record, value))
}

/// Runs a line: the order that it gives is done, and the answer says how it went.
pub fn run_line(line: &[u8]) -> Answer
    ensures { Answered (asked_by (fields_of line.now)) result }
{
    match order_in(line) {
        Some(order) => perform(order),
        None => Err(Complaint::Unknown),
    }
}

/// The most bytes that an input can have, a final newline included.
pub const LIMIT: usize = 65_536;

/// Whether an input is run line by line, or why not.
pub fn check_input(text: &[u8]) -> Result<(), Complaint>
    ensures { result ≡ input_checked (length text.now) }
{
    if text.len() > LIMIT {
        return Err(Complaint::TooLong);
    }
    Ok(())
}
