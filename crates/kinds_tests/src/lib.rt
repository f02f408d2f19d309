//! Tests of the record kinds: every boundary, round trips, and the reading of damaged units.
#![tactic(auto)]

#[cfg(test)]
mod boundaries;
#[cfg(test)]
mod units;
