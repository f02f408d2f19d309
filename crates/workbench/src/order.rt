//! The orders that a line can give: to make a tile or a mast, and write it as the record of a number.
pub use commands::command::{Draft, Order};
