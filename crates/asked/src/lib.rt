//! What is asked of a store and what it answers, as plain values for the tables of tests.
#![tactic(auto)]

pub mod asks;
