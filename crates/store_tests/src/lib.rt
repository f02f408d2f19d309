//! Tests of the store on simulated devices, by tables of what is asked and what must be answered.
#![tactic(auto)]

#[cfg(test)]
mod refusals;
#[cfg(test)]
mod tests;
