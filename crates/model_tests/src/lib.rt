//! Long random lists of requests to a store, against a plain model of it.
#![tactic(auto)]

#[cfg(test)]
mod lists;
#[cfg(test)]
mod tests;
