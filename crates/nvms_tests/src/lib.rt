//! Tests of the simulated memories, by tables of acts with what stands after each.
#![tactic(auto)]

#[cfg(test)]
mod tables;
#[cfg(test)]
mod tests;
