//! The desk of the program: a small ring with the records that wait to be committed to it, and the lines about both and about
//! a small memory.
#![tactic(auto)]

pub mod hold;
pub mod places;
pub mod ring_desk;
pub mod rings;
pub mod verbs;
