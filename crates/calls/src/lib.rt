//! The calls of a store: what each is asked, what it answers, and what it does to two devices.
#![tactic(auto)]

pub mod answer;
pub mod call;
pub mod state;
