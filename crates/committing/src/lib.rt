//! Commit on any non-volatile memory beside any disk: a step by its plan.
#![tactic(auto)]

pub mod commit;
