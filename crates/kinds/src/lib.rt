//! What a record kind is. No layer above knows more of a kind than this trait says.
#![tactic(auto)]

pub mod kind;
