//! Tests of a script's lines: forms that are commands and forms that are not, and lines of the output byte by byte.
#![tactic(auto)]

#[cfg(test)]
mod forms;
#[cfg(test)]
mod output;
