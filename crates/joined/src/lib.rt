//! Tiles and masts in one table: word 0 of a unit tells them apart.
#![tactic(auto)]

pub mod kind;
pub mod record;
pub mod show;
