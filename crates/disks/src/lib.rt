//! Two simulated disks: the patient one settles sectors at syncs only, the prompt one at every write.
#![tactic(auto)]

pub mod acting;
pub mod contents;
pub mod laws;
pub mod looking;
pub mod making;
pub mod patient;
pub mod prompt;
pub mod sectors;
pub mod settling;
pub mod simulation;
