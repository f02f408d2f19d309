//! Tests of the ring: rings made and walked back, and every word of a ring turned in turn.
#![tactic(auto)]

#[cfg(test)]
mod slow;
#[cfg(test)]
mod tests;
