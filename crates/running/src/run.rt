//! A list of requests.
ghost use Rattle.std.specs.Prelude.{◌≡◌, length, IfOk, MatchResult};
ghost use Rattle.refusal.specs.declared.reason.Refusal.TheVariants.{NoMemory};
ghost use Rattle.order.specs.Order.{kind_of};
ghost use Rattle.engine.specs.Machine.{machine};
ghost use Rattle.promise.specs.Told.{Performs};

use crate::perform::fulfil;
use calls::answer::Answer;
use device::disk::Disk;
use device::nvm::Nvm;
use engine::engine::Engine;
use kinds::kind::RecordKind;
use promise::request::Request;
use refusal::reason::Refusal;
use std::alloc::Global;

/// Performs a list of requests, of any length, one after another, and gives their answers. It takes the room for the answers first; for
/// want of memory it has done nothing.
pub fn run<N: Nvm, D: Disk, K: RecordKind>(
    heap: Global,
    engine: &mut Engine<N, D, K>,
    requests: &[Request<K::Record>],
) -> Result<Vec<Answer<K::Record>>, Refusal>
    ensures each { IfOk result (λ answers. length answers.items ≡ length requests.now) }
    ensures promise { MatchResult result (λ answers. Performs (kind_of K.RecordKind.unit K.RecordKind.reads) (machine N.Nvm.meaning D.Disk.meaning engine.old) requests.now answers.items (machine N.Nvm.meaning D.Disk.meaning engine.new))
        (λ e. (e ≡ NoMemory) × (engine.new ≡ engine.old)) }
{
    let mut answers = Vec::with_capacity(heap, requests.len())?;
    for request in requests {
        let answer = fulfil(engine, request);
        answers.push_reserved(answer);
    }
    Ok(answers)
}
