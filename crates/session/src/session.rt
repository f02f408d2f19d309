//! A store with or without a held ticket, and what is asked of it.
ghost use Rattle.std.specs.Prelude.{◌≡◌, false, [], ◌∷◌, length, MatchResult};
ghost use Rattle.refusal.specs.declared.reason.Refusal.TheVariants.{NoMemory};
ghost use Rattle.session.specs.Machines.{machine_of};
ghost use Rattle.promise.specs.Told.{Performs};
ghost use Rattle.session.specs.Said.{tiles_and_masts};

use calls::answer::Answer;
use device::disk::Disk;
use device::nvm::Nvm;
use joined::kind::JoinedKind;
use joined::record::Joined;
use promise::request::Request;
use refusal::reason::Refusal;
use std::alloc::Global;
use store::store::Store;

/// A store that a script runs on, and whether the script holds a ticket of it.
#[derive(Drop)]
pub struct Session<N: Nvm, D: Disk> {
    pub(crate) store: Store<N, D, JoinedKind>,
    // Kept: a plain yes or no with no value beside it; the ticket itself is never there, since `run` makes the calls.
    pub(crate) held: bool,
}

impl<N: Nvm, D: Disk> Session<N, D> {
    /// A session without a ticket.
    pub fn new(store: Store<N, D, JoinedKind>) -> Session<N, D>
        ensures { (result.store ≡ store) × (result.held ≡ false) }
    {
        Session { store, held: false }
    }

    /// Asks one thing of the store.
    pub fn ask(&mut self, heap: Global, request: Request<Joined>) -> Result<Answer<Joined>, Refusal>
        ensures answer { MatchResult result (λ a. Performs tiles_and_masts
            (machine_of N.Nvm.meaning D.Disk.meaning self.old) (request ∷ []) (a ∷ [])
            (machine_of N.Nvm.meaning D.Disk.meaning self.new)) (λ e. e ≡ NoMemory) }
        ensures ticket { self.new.held ≡ self.old.held }
    {
        let requests = [request];
        let mut answers = self.store.run(heap, &requests)?;
        answers.pop().ok_or(Refusal::NoMemory)
    }
}
