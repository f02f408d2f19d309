//! The device acts of settling, format and commit, on any memory and any disk: each function runs one list of acts, to its end or
//! up to the first that is refused.
#![tactic(auto)]

pub mod blocks;
pub mod both;
pub mod commit;
pub mod format;
pub mod laws;
pub mod memory;
