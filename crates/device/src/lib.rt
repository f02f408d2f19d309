//! The two interfaces to devices that can lose power: a non-volatile memory and a disk, each with its meaning.
#![tactic(auto)]

// Kept: two traits with no common one above them, since their pieces are of two types, and under a common trait each clause would name
// its meaning through that one.

pub mod comeback;
pub mod disk;
pub mod nvm;
