//! Scripts on fresh devices: patient ones, all zero.
#![tactic(auto)]

ghost use Rattle.std.specs.Prelude.{◌≡◌, MatchResult};
ghost use Rattle.refusal.specs.declared.reason.Refusal.TheVariants.{NoMemory};
ghost use Rattle.nvm_words.specs.Made.{zeroed_of};
ghost use Rattle.nvms.specs.States.{patient_state};
ghost use Rattle.disks.specs.State.{disk_state, blank};
ghost use Rattle.fresh.specs.Fresh.{RunsFresh};

use disks::patient::PatientDisk;
use joined::kind::JoinedKind;
use nvms::devices::PatientNvm;
use refusal::reason::Refusal;
use session::script::run_script;
use session::session::Session;
use std::alloc::Global;
use store::store::Store;

/// The units of the memory: unit 0 and a ring of 32 places.
const UNITS: usize = 33;

/// The blocks of the disk.
const BLOCKS: usize = 2;

/// The acts after which each device goes dark.
const ACTS: u64 = 1_000_000;

/// A memory with a ring of 32 places, all zero, which goes dark after a million acts.
fn fresh_nvm(heap: Global) -> Result<PatientNvm, Refusal>
    ensures { MatchResult result (λ n. patient_state n ≡ zeroed_of 33 1000000) (λ e. e ≡ NoMemory) }
{
    PatientNvm::zeroed(heap, UNITS, ACTS)
}

/// A disk of 2 blocks, all zero, which goes dark after a million acts.
fn fresh_disk(heap: Global) -> Result<PatientDisk, Refusal>
    ensures { MatchResult result (λ d. disk_state d.contents ≡ blank 2 1000000) (λ e. e ≡ NoMemory) }
{
    PatientDisk::zeroed(heap, BLOCKS, ACTS)
}

/// What a script prints that is run on a new store on fresh devices.
pub fn run_fresh(heap: Global, input: &[u8]) -> Result<Vec<u8>, Refusal>
    ensures { MatchResult result (λ out. RunsFresh input.now out.items) (λ e. e ≡ NoMemory) }
{
    let nvm = fresh_nvm(heap)?;
    let disk = fresh_disk(heap)?;
    let made: Result<Store<PatientNvm, PatientDisk, JoinedKind>, _> = Store::new(heap, nvm, disk);
    match made {
        Ok(store) => {
            let mut session = Session::new(store);
            run_script(heap, &mut session, input)
        }
        Err(unmade) => Err(unmade.reason),
    }
}
