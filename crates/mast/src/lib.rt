//! The mast: a transmitter site of a coverage plan, with its name.
#![tactic(auto)]

pub mod kind;
pub mod make;
pub mod record;
pub mod show;
