//! The calls of a store that act on its devices, on any non-volatile memory and any disk: each is a step by its plan.
#![tactic(auto)]

// Kept: the calls go by the two devices and any state and list, and a premise of order, since a call is proved here once for every store
// that may hold the devices; the engine above has them, and their order, as one value.

pub mod checkpoint;
pub mod contents;
pub mod ends;
pub mod format;
pub mod read;
pub mod sizes;
