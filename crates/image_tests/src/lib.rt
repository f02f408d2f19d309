//! Tests of mount on images that are built word by word: sound ones and damaged ones.
#![tactic(auto)]

#[cfg(test)]
mod fate;
#[cfg(test)]
mod image;
#[cfg(test)]
mod tests;
