//! The calls of a store that reach its devices, for callers that hold no ticket. Each is a step by its plan and leaves a store in order
//! as one; those of a mounted store rest on its being in order, as every store is that was made and called.
#![tactic(auto)]

pub mod checkpoint;
pub mod commit;
pub mod format;
pub mod mount;
pub mod read;
pub mod restart;
