//! Scripts run on a store: each line makes its call through the store's `run`, and prints its line.
#![tactic(auto)]

pub mod line;
pub mod said;
pub mod script;
pub mod session;
