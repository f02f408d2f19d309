//! What every simulated device shares: its power, how its contents come back, and the list of what may be unsettled.
#![tactic(auto)]

pub mod listing;
pub mod pending;
pub mod rows;
pub mod supply;
pub mod taking;
