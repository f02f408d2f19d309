//! The two simulated non-volatile memories: a patient one and one that keeps at most eight lines unsettled.
#![tactic(auto)]

pub mod acts;
pub mod devices;
pub mod nature;
mod room;
