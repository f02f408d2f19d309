//! The tile: a square of a coverage plan with the levels that were computed for its samples.
#![tactic(auto)]

pub mod kind;
pub mod make;
pub mod record;
pub mod show;
