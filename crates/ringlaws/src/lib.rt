//! The ring of transactions in a non-volatile memory: its layout, what it spells, and the laws of both.
#![tactic(auto)]

pub mod laws;
pub mod setting;
