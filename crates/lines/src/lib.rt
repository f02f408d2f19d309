//! Lines of fields parted by tabs, and the numbers in them. Nothing is copied: a line and a field are parts of the text.
#![tactic(auto)]

pub mod fields;
pub mod numeral;
pub mod split;
#[cfg(test)]
mod tests;
