//! A plain model of a store, for tests: every answer, act by act, and what power cuts may leave.
#![tactic(auto)]

pub mod model;
pub mod worlds;
