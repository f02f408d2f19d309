//! Mount on any non-volatile memory and any disk, with whatever contents: a step by its plan.
#![tactic(auto)]

pub mod mount;
