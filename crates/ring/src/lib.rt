//! The ring of transactions, walked back from any source of words.
#![tactic(auto)]

pub mod find;
pub mod list;
pub mod source;
pub mod step;
pub mod unit;
pub mod walk;
