//! The store.
ghost use Rattle.std.specs.Prelude.{◌≡◌, [], length, IfOk, MatchResult};
ghost use Rattle.refusal.specs.declared.reason.Refusal.TheVariants.{NoMemory};
ghost use Rattle.crash.specs.Pair.{both, is_dark};
ghost use Rattle.calls.specs.declared.state.State.TheVariants.{Unmounted};
ghost use Rattle.order.specs.Order.{InOrder, kind_of};
ghost use Rattle.settings.specs.Puts.{list_of};
ghost use Rattle.engine.specs.Machine.{machine as machine_of};
ghost use Rattle.promise.specs.History.{unknown, Known};
ghost use Rattle.promise.specs.Told.{Performs};
ghost use Rattle.store.specs.Machine.{Held, machine};
ghost use Rattle.store.specs.OneByOne.{CallsOneByOneAreAList};

use calls::answer::Answer;
use calls::state::State;
use device::disk::Disk;
use device::nvm::Nvm;
use engine::engine::{Engine, Unmade};
use kinds::kind::RecordKind;
use promise::request::Request;
use refusal::reason::Refusal;
use std::alloc::Global;
use std::marker::Model;

/// A store of records of the kind `K` on two devices of any types. It owns them; nothing else reaches them. It is always in order,
/// whatever its devices held when it was made.
#[derive(Drop)]
pub struct Store<N: Nvm, D: Disk, K: RecordKind> {
    pub(crate) engine: Engine<N, D, K>,
}

impl<N: Nvm, D: Disk, K: RecordKind> Model for Store<N, D, K> {
    ghost Value = { Held N D K K.Record };

    ghost view = { λ s. record { engine = s.engine } };

    ghost invariant = { λ s. ∥ InOrder (machine_of N.Nvm.meaning D.Disk.meaning s.engine) ∥₁ };
}

impl<N: Nvm, D: Disk, K: RecordKind> Store<N, D, K> {
    /// An unmounted store of two devices. It takes all its memory here; for want of it the devices come back. Nothing is known of what
    /// the devices hold.
    pub fn new(heap: Global, nvm: N, disk: D) -> Result<Store<N, D, K>, Unmade<N, D>>
        ensures made { MatchResult result (λ s. (s.engine.nvm ≡ nvm) × (s.engine.disk ≡ disk) × (s.engine.state ≡ Unmounted) × (list_of s.engine.settings ≡ [])) (λ u. (u.nvm ≡ nvm) × (u.disk ≡ disk) × (u.reason ≡ NoMemory)) }
        ensures known { IfOk result (λ s. Known (kind_of K.RecordKind.unit K.RecordKind.reads) unknown (machine N.Nvm.meaning D.Disk.meaning s)) }
    {
        let engine = Engine::new(heap, nvm, disk)?;
        Ok(Store { engine })
    }

    /// Performs a list of requests, of any length, one after another, and gives their answers. It takes the room for the answers first;
    /// for want of memory it has done nothing.
    ///
    /// This contract holds the whole promise. From the first accepted format on, whatever the devices held before: every call answers as
    /// the rules say, every read exactly as the book does, accepted commits lie whole and in order, a commit cut by power lies whole in
    /// its turn or is absent, which is decided when power returns, and a mount of an unmounted store is accepted or answers 5. It holds
    /// for the calls of this list, and for every list that may follow.
    pub fn run(
        &mut self,
        heap: Global,
        requests: &[Request<K::Record>],
    ) -> Result<Vec<Answer<K::Record>>, Refusal>
        ensures each { IfOk result (λ answers. length answers.items ≡ length requests.now) }
        ensures promise { MatchResult result (λ answers. Performs (kind_of K.RecordKind.unit K.RecordKind.reads) (machine N.Nvm.meaning D.Disk.meaning self.old) requests.now answers.items (machine N.Nvm.meaning D.Disk.meaning self.new))
            (λ e. (e ≡ NoMemory) × (self.new.engine ≡ self.old.engine)) }
    {
        running::run::run(heap, &mut self.engine, requests)
    }

    /// Whether the store is unmounted, idle or has an open transaction.
    pub fn state(&self) -> State
        ensures { result ≡ self.now.engine.state }
    {
        self.engine.state()
    }

    /// Whether power is gone from one of the devices.
    pub fn is_dark(&self) -> bool
        ensures { result ≡ is_dark (both (N.Nvm.meaning self.now.engine.nvm) (D.Disk.meaning self.now.engine.disk)) }
    {
        self.engine.is_dark()
    }
}

/// Calls that a program makes one by one, and restarts, keep the same promise as one list of them.
pub fn calls_one_by_one_are_a_list<K: RecordKind>()
    ensures { CallsOneByOneAreAList (kind_of K.RecordKind.unit K.RecordKind.reads) }
{}
