//! Looking a record up, and the checkpoint, on any non-volatile memory and any disk.
#![tactic(auto)]

mod blocks;
pub mod devices;
mod gather;
mod lay;
pub mod loads;
pub mod read;
mod rows;
pub mod scratch;
