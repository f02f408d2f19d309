//! Tests of what becomes of tickets.
#![tactic(auto)]

#[cfg(test)]
mod tests;
#[cfg(test)]
mod tickets;
