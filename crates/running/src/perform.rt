//! One call, or one restart.
ghost use Rattle.std.specs.Prelude.{◌≡◌, [], ◌∷◌};
ghost use Rattle.order.specs.Order.{InOrder, kind_of};
ghost use Rattle.engine.specs.Called.{Called};
ghost use Rattle.engine.specs.Machine.{machine};
ghost use Rattle.promise.specs.Told.{Performs};
ghost use Rattle.running.specs.Asked.{AsAsked};

use crate::tell::{blocks, done, found, used};
use calls::answer::Answer;
use calls::call::Call;
use device::disk::Disk;
use device::nvm::Nvm;
use device_calls::checkpoint::{checkpoint, close};
use device_calls::commit::commit;
use device_calls::format::format;
use device_calls::mount::mount;
use device_calls::read::read;
use device_calls::restart::restart;
use engine::engine::Engine;
use kinds::kind::RecordKind;
use promise::request::Request;

/// Performs a call and gives its answer.
pub fn perform<N: Nvm, D: Disk, K: RecordKind>(
    engine: &mut Engine<N, D, K>,
    call: &Call<K::Record>,
) -> Answer<K::Record>
    ensures { InOrder (machine N.Nvm.meaning D.Disk.meaning engine.old) → Called (kind_of K.RecordKind.unit K.RecordKind.reads) (machine N.Nvm.meaning D.Disk.meaning engine.old) call.now result (machine N.Nvm.meaning D.Disk.meaning engine.new) }
{
    match call {
        Call::Format => done(format(engine)),
        Call::Mount => blocks(mount(engine)),
        Call::Begin => done(engine.begin()),
        Call::Set(number, value) => done(engine.set(*number, value)),
        Call::Clear(number) => done(engine.clear(*number)),
        Call::Read(number) => found(read(engine, *number)),
        Call::Commit => used(commit(engine)),
        Call::Abandon => done(engine.abandon()),
        Call::Checkpoint => blocks(checkpoint(engine)),
        Call::Close => done(close(engine)),
    }
}

/// Performs a request. A restart answers that it is done, and asks each device to come back as the request says.
pub fn fulfil<N: Nvm, D: Disk, K: RecordKind>(
    engine: &mut Engine<N, D, K>,
    request: &Request<K::Record>,
) -> Answer<K::Record>
    ensures promise { Performs (kind_of K.RecordKind.unit K.RecordKind.reads) (machine N.Nvm.meaning D.Disk.meaning engine.old) (request.now ∷ []) (result ∷ []) (machine N.Nvm.meaning D.Disk.meaning engine.new) }
    ensures back { AsAsked N.Nvm.comes D.Disk.comes engine.old.nvm engine.old.disk request.now engine.new.nvm engine.new.disk }
{
    match request {
        Request::Call(call) => perform(engine, call),
        Request::Restart(back) => {
            restart(engine, back);
            Answer::Done
        }
    }
}
