//! What a store is made of: its engine.
ghost use Rattle.std.specs.Prelude.{◌≡◌, [], IfOk, MatchResult};
ghost use Rattle.refusal.specs.declared.reason.Refusal.TheVariants.{NoMemory};
ghost use Rattle.crash.specs.Pair.{both, is_dark};
ghost use Rattle.calls.specs.declared.state.State.TheVariants.{Unmounted};
ghost use Rattle.order.specs.Order.{InOrder};
ghost use Rattle.settings.specs.Puts.{list_of};
ghost use Rattle.engine.specs.Machine.{machine};

use calls::state::State;
use checkpointing::scratch::Scratch;
use device::disk::Disk;
use device::nvm::Nvm;
use kinds::kind::RecordKind;
use refusal::reason::Refusal;
use settings::kept::Settings;
use std::alloc::Global;
use std::marker::PhantomData;

/// The engine of a store of records of the kind `K`: its two devices, its state, the settings of its open transaction, and the memory
/// that its calls work with. It keeps no copy of what its devices hold. Its parts are open to the crates that make the calls: it is in
/// order when it is made, and each call leaves it so. A program has a `Store`, whose engine is closed.
#[derive(Drop)]
pub struct Engine<N: Nvm, D: Disk, K: RecordKind> {
    pub nvm: N,
    pub disk: D,
    pub state: State,
    pub settings: Settings,
    pub scratch: Scratch,
    pub kind: PhantomData<K>,
}

/// Two devices of which no store was made, and why.
#[derive(Drop)]
pub struct Unmade<N, D> {
    pub nvm: N,
    pub disk: D,
    pub reason: Refusal,
}

impl<N: Nvm, D: Disk, K: RecordKind> Engine<N, D, K> {
    /// An unmounted store of two devices. It takes all its memory here; for want of it the devices come back.
    pub fn new(heap: Global, nvm: N, disk: D) -> Result<Engine<N, D, K>, Unmade<N, D>>
        ensures made { MatchResult result (λ s. (s.nvm ≡ nvm) × (s.disk ≡ disk) × (s.state ≡ Unmounted) × (list_of s.settings ≡ [])) (λ u. (u.nvm ≡ nvm) × (u.disk ≡ disk) × (u.reason ≡ NoMemory)) }
        ensures order { IfOk result (λ s. InOrder (machine N.Nvm.meaning D.Disk.meaning s)) }
    {
        match Settings::new(heap) {
            Ok(settings) => Ok(Engine {
                nvm,
                disk,
                state: State::Unmounted,
                settings,
                scratch: Scratch::new(),
                kind: PhantomData,
            }),
            Err(reason) => Err(Unmade { nvm, disk, reason }),
        }
    }

    /// Whether the store is unmounted, idle or has an open transaction.
    pub fn state(&self) -> State
        ensures { result ≡ self.now.state }
    {
        self.state
    }

    /// Whether power is gone from one of the devices.
    pub fn is_dark(&self) -> bool
        ensures { result ≡ is_dark (both (N.Nvm.meaning self.now.nvm) (D.Disk.meaning self.now.disk)) }
    {
        self.nvm.is_dark() || self.disk.is_dark()
    }
}
