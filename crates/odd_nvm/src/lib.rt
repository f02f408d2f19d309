//! A further non-volatile memory, to show that one can be added without touching any other crate: it proves the contract of
//! the interface, and nothing above or beside it knows of it.
#![tactic(auto)]

pub mod acts;
pub mod devices;
