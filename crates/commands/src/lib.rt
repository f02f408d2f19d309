//! The lines of a script: which command a line gives, and the record that a command asks for.
#![tactic(auto)]

pub mod comeback;
pub mod command;
pub mod make;
pub mod parse;
mod verb;
