//! The engine of a store: what a store is made of, which calls it takes in which state, and the calls without device acts. It is written
//! once above any two devices and any record kind, and knows no ticket.
#![tactic(auto)]

pub mod engine;
pub mod judge;
pub mod quiet;
