//! Tests of power cuts: power is cut at every act of every call that has any.
#![tactic(auto)]

#[cfg(test)]
mod cuts;
#[cfg(test)]
mod tests;
