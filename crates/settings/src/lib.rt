//! The settings of an open transaction: which records it sets, in the order in which they were first set, and to which units.
#![tactic(auto)]

pub mod kept;
pub mod puts;
