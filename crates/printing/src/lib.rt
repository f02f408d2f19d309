//! The lines that a script's run prints, as bytes.
#![tactic(auto)]

pub mod complaint;
pub mod detail;
mod fields;
pub mod line;
