//! The store: a table of records on a disk with a journal of changed records in a non-volatile memory, written once above any two
//! devices and any record kind.
#![tactic(auto)]

pub mod store;
pub mod store_calls;
pub mod ticket;
