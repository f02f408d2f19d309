//! The two memories.
ghost use Rattle.std.specs.Prelude.{◌≤◌, length, IfSome};
ghost use Rattle.std.proofs.Props.{props};
ghost use Rattle.nvm_words.specs.Meant.{unsettled_lines};

use crate::nature::{EightLine, Nature, Patient};
use nvm_words::words::Words;
use std::marker::PhantomData;

/// A simulated memory. If one line more than its nature allows would hold unsettled words after a store, the line that became
/// unsettled earliest settles first.
#[derive(Drop)]
pub struct SimulatedNvm<N: Nature> {
    pub(crate) words: Words,
    pub(crate) nature: PhantomData<N>,
    ghost few: { IfSome N.limit (λ most. length (unsettled_lines words) ≤ most) } by { Prim.hlevel props },
}

/// The patient memory settles at fences only.
pub type PatientNvm = SimulatedNvm<Patient>;

/// The eight-line memory lets at most eight lines hold unsettled words: a store into a ninth first settles the line that
/// became unsettled earliest.
pub type EightLineNvm = SimulatedNvm<EightLine>;
