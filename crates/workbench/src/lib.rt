//! The workbench: what a line of input asks for, and what was done about it.
#![tactic(auto)]

pub mod answer;
pub mod order;
pub mod perform;
pub mod read;
pub mod write;
