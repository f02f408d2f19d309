//! Requests performed: a call by its name with its answer, a restart, and lists of both, of any length.
#![tactic(auto)]

pub mod perform;
pub mod run;
pub mod tell;
