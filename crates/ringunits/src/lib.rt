//! Unit 0, the places of a ring, its units judged, and its units written.
#![tactic(auto)]

pub mod fill;
pub mod header;
pub mod info;
pub mod places;
