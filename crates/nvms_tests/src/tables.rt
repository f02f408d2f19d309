//! Acts on a memory, and what stands after them.
use device::nvm::Nvm;
use nvm_words::mark::Mark;
use nvms::devices::SimulatedNvm;
use nvms::nature::Nature;
use refusal::reason::Refusal;
use std::process::Abort;

/// How a word stands.
#[derive(Clone, Copy, PartialEq, Eq, Debug)]
pub enum Look {
    /// Settled at a value.
    Still(u64),
    /// Waiting for a flush: its present and its settled value.
    Waits(u64, u64),
    /// Waiting for a fence: its present and its settled value.
    Flushed(u64, u64),
    /// Settled at two values, which no memory is.
    Torn,
    /// Beyond the size.
    Beyond,
}

/// How a word with these values and this mark stands.
fn seen(present: Option<u64>, settled: Option<u64>, mark: Option<Mark>) -> Look {
    match (mark, present, settled) {
        (Some(Mark::Waiting), Some(p), Some(s)) => Look::Waits(p, s),
        (Some(Mark::Flushed), Some(p), Some(s)) => Look::Flushed(p, s),
        (Some(Mark::Settled), Some(p), Some(s)) => {
            if p == s { Look::Still(p) } else { Look::Torn }
        }
        _ => Look::Beyond,
    }
}

/// A memory that can be looked into.
pub trait Simulation: Nvm {
    fn look(&self, word: usize) -> Look;
}

impl<N: Nature> Simulation for SimulatedNvm<N> {
    fn look(&self, word: usize) -> Look {
        seen(self.present(word), self.settled(word), self.mark(word))
    }
}

/// A store of a value into a word, a flush of a line, or a fence.
#[derive(Clone, Copy)]
pub enum Step {
    Store(usize, u64),
    Flush(usize),
    Fence,
}

/// A step, the number of its refusal or 0, and how the words 0, 1 and 8 stand then.
#[derive(Clone, Copy)]
pub struct Row(pub Step, pub u32, pub Look, pub Look, pub Look);

/// The number of a refusal, or 0.
// Kept: by its number, which the rules name, so that a table can be read beside them.
pub fn number(answer: Result<(), Refusal>) -> u32 {
    match answer {
        Ok(()) => 0,
        Err(refusal) => refusal.number(),
    }
}

/// The answer to a step, as a number.
pub fn perform<N: Nvm>(nvm: &mut N, step: Step) -> u32 {
    match step {
        Step::Store(word, value) => number(nvm.store(word, value)),
        Step::Flush(line) => number(nvm.flush(line)),
        Step::Fence => number(nvm.fence()),
    }
}

/// Performs the steps of a table and compares what stands after each.
pub fn follow<N: Simulation>(rt: &impl Abort, nvm: &mut N, rows: &[Row]) {
    for row in rows {
        assert_eq!(rt; perform(nvm, row.0), row.1);
        assert_eq!(rt; nvm.look(0), row.2);
        assert_eq!(rt; nvm.look(1), row.3);
        assert_eq!(rt; nvm.look(8), row.4);
    }
}
