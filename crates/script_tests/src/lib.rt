//! Scripts on fresh devices, and what they print.
#![tactic(auto)]

#[cfg(test)]
mod forms;
#[cfg(test)]
mod power;
#[cfg(test)]
mod runs;
