//! The words of a simulated non-volatile memory: what all such memories share, whatever settles in them and when.
#![tactic(auto)]

pub mod acting;
pub mod asking;
mod cell;
pub mod making;
pub mod mark;
pub mod restarting;
mod rows;
pub mod storing;
pub mod words;
