//! What the simulated memories do, held to the contract of every NVM and to the nature of each: which line settles before a
//! store, and that it turns dark exactly at the first act after its number of performed ones.
ghost use Rattle.std.specs.Prelude.{◌≡◌, ℕ, ◌≤◌, [], length, is_ok, if◌then◌else◌, IfOk, IfSome, MatchResult};
ghost use Rattle.refusal.specs.declared.reason.Refusal.TheVariants.{NoMemory};
ghost use Rattle.device.specs.Devices.{Acted, Restarted};
ghost use Rattle.device.specs.Words.{Store, Flush, Fence, nvm_rules};
ghost use Rattle.simulated.specs.Natures.{answers, becomes, returned};
ghost use Rattle.simulated.specs.Lists.{member};
ghost use Rattle.nvm_words.specs.Meant.{is_unsettled_line};
ghost use Rattle.nvm_words.specs.Looks.{present_at, settled_at, mark_at};
ghost use Rattle.nvm_words.specs.Made.{zeroed_of};
ghost use Rattle.nvms.specs.Natures.{limited_makes, lines_after};
ghost use Rattle.nvms.specs.States.{nvm_state, nvm_meaning, lines_by_age, NvmMade};
ghost use Rattle.nvm_words.proofs.Owned.{beyond_rests};
ghost use Rattle.std.proofs.Common.{rules, arith};

use crate::devices::SimulatedNvm;
use crate::nature::Nature;
use crate::room::{make_room, settle_surplus};
use device::comeback::Comeback;
use device::nvm::Nvm;
use nvm_words::mark::Mark;
use nvm_words::words::Words;
use refusal::reason::Refusal;
use std::alloc::Global;
use std::marker::PhantomData;

impl<N: Nature> SimulatedNvm<N> {
    /// A memory of the whole units in the shortest of the lists, which turns dark at the first act after `acts` performed
    /// ones. A word that is marked settled has its present value, whatever the other list says. Of more unsettled lines than
    /// its nature allows the lowest settle at once.
    pub fn new(
        heap: Global,
        settled: Vec<u64>,
        present: Vec<u64>,
        marks: Vec<Mark>,
        acts: u64,
    ) -> Result<SimulatedNvm<N>, Refusal>
        ensures { MatchResult result (λ n. NvmMade N.limit settled.items present.items marks.items acts n) (λ e. e ≡ NoMemory) }
    {
        let mut words = Words::new(heap, settled, present, marks, acts)?;
        settle_surplus(&mut words, N::limit());
        Ok(SimulatedNvm {
            words,
            nature: PhantomData,
        })
    }

    /// A memory of some units, settled at zero.
    pub fn zeroed(heap: Global, units: usize, acts: u64) -> Result<SimulatedNvm<N>, Refusal>
        ensures state { MatchResult result (λ n. nvm_state n ≡ zeroed_of units acts) (λ e. e ≡ NoMemory) }
        ensures lines { IfOk result (λ n. lines_by_age n ≡ []) }
    {
        let words = Words::zeroed(heap, units, acts)?;
        Ok(SimulatedNvm {
            words,
            nature: PhantomData,
        })
    }

    /// The present value of a word, for tests and tools.
    pub fn present(&self, word: usize) -> Option<u64>
        ensures { result ≡ present_at (nvm_meaning self.now) word }
    {
        self.words.present_at(word)
    }

    /// The settled value of a word.
    pub fn settled(&self, word: usize) -> Option<u64>
        ensures { result ≡ settled_at (nvm_meaning self.now) word }
    {
        self.words.settled_at(word)
    }

    /// The lines that hold an unsettled word, and no other, the one that became so earliest first: no more than the nature of
    /// the memory allows.
    pub fn lines_by_age(&self) -> &[usize]
        ensures lines { result.now ≡ lines_by_age self.now }
        ensures exact { (l : ℕ) → member l (lines_by_age self.now) ≡ is_unsettled_line (nvm_meaning self.now).piece l }
        ensures few { IfSome N.limit (λ most. length result.now ≤ most) }
    {
        self.words.unsettled_lines()
    }

    /// The mark of a word.
    pub fn mark(&self, word: usize) -> Option<Mark>
        ensures { result ≡ mark_at (nvm_meaning self.now) word }
    {
        self.words.mark_at(word)
    }
}

impl<N: Nature> Nvm for SimulatedNvm<N> {
    ghost meaning = { nvm_meaning };

    ghost comes = { λ s how acts t. nvm_state t ≡ returned how acts (nvm_state s) };

    ghost fits = { first_of (Prim.search rules, Prim.grind (arith, Self.row.coded.inj)) };

    ghost ends = { λ n w far. beyond_rests n.words w far };

    fn units(&self) -> usize {
        self.words.units()
    }

    fn is_dark(&self) -> bool {
        self.words.is_dark()
    }

    fn load(&self, word: usize) -> Result<u64, Refusal> {
        self.words.load(word)
    }

    fn store(&mut self, word: usize, value: u64) -> Result<(), Refusal>
        ensures acted { Acted nvm_rules (nvm_meaning self.old) (Store word value) result (nvm_meaning self.new) }
        ensures answer { result ≡ answers nvm_rules (nvm_state self.old) (Store word value) }
        ensures nature { nvm_state self.new ≡ becomes nvm_rules (limited_makes N.limit (lines_by_age self.old) (Store word value)) (nvm_state self.old) (Store word value) }
        ensures lines { lines_by_age self.new ≡ (if is_ok result then lines_after N.limit (lines_by_age self.old) (Store word value) (nvm_meaning self.old).piece else lines_by_age self.old) }
    {
        self.words.admit_store(word)?;
        make_room(&mut self.words, N::limit(), word / 8);
        self.words.put(word, value);
        Ok(())
    }

    fn flush(&mut self, line: usize) -> Result<(), Refusal>
        ensures acted { Acted nvm_rules (nvm_meaning self.old) (Flush line) result (nvm_meaning self.new) }
        ensures answer { result ≡ answers nvm_rules (nvm_state self.old) (Flush line) }
        ensures nature { nvm_state self.new ≡ becomes nvm_rules (limited_makes N.limit (lines_by_age self.old) (Flush line)) (nvm_state self.old) (Flush line) }
        ensures lines { lines_by_age self.new ≡ (if is_ok result then lines_after N.limit (lines_by_age self.old) (Flush line) (nvm_meaning self.old).piece else lines_by_age self.old) }
    {
        self.words.flush(line)
    }

    fn fence(&mut self) -> Result<(), Refusal>
        ensures acted { Acted nvm_rules (nvm_meaning self.old) Fence result (nvm_meaning self.new) }
        ensures answer { result ≡ answers nvm_rules (nvm_state self.old) Fence }
        ensures nature { nvm_state self.new ≡ becomes nvm_rules (limited_makes N.limit (lines_by_age self.old) Fence) (nvm_state self.old) Fence }
        ensures lines { lines_by_age self.new ≡ (if is_ok result then lines_after N.limit (lines_by_age self.old) Fence (nvm_meaning self.old).piece else lines_by_age self.old) }
    {
        self.words.fence()
    }

    fn restart(&mut self, how: &Comeback, acts: u64)
        ensures restarted { Restarted (nvm_meaning self.old) (nvm_meaning self.new) }
        ensures asked { nvm_state self.new ≡ returned how.now acts (nvm_state self.old) }
        ensures nature { nvm_state self.new ≡ returned how.now acts (nvm_state self.old) }
        ensures lines { lines_by_age self.new ≡ [] }
    {
        self.words.restart(how, acts);
    }
}
