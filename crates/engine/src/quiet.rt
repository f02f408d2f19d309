//! The calls without device acts, for callers that hold no ticket.
ghost use Rattle.std.specs.Prelude.{◌≡◌};
ghost use Rattle.crash.specs.Pair.{both, is_dark};
ghost use Rattle.calls.specs.declared.call.Call.TheVariants.{Begin, Set, Clear, Abandon};
ghost use Rattle.calls.specs.Judge.{judge as judgement};
ghost use Rattle.order.specs.Order.{kind_of};
ghost use Rattle.calling.specs.Seen.{done_answer};
ghost use Rattle.engine.specs.Called.{admission, Called};
ghost use Rattle.engine.specs.Machine.{machine};

use crate::engine::Engine;
use crate::judge::judge;
use calls::call::Call;
use calls::state::State;
use device::disk::Disk;
use device::nvm::Nvm;
use kinds::kind::RecordKind;
use refusal::reason::Refusal;

impl<N: Nvm, D: Disk, K: RecordKind> Engine<N, D, K> {
    /// Lets a call through: darkness is asked first, then the state.
    pub fn admit(&self, call: &Call<()>) -> Result<(), Refusal>
        ensures { result ≡ admission (is_dark (both (N.Nvm.meaning self.now.nvm) (D.Disk.meaning self.now.disk))) (judgement self.now.state call.now) }
    {
        if self.is_dark() {
            return Err(Refusal::Dark);
        }
        match judge(self.state, call) {
            Some(refusal) => Err(refusal),
            None => Ok(()),
        }
    }

    /// Opens a transaction.
    pub fn begin(&mut self) -> Result<(), Refusal>
        ensures { Called (kind_of K.RecordKind.unit K.RecordKind.reads) (machine N.Nvm.meaning D.Disk.meaning self.old) Begin (done_answer result) (machine N.Nvm.meaning D.Disk.meaning self.new) }
    {
        self.admit(&Call::Begin)?;
        self.state = State::Open;
        Ok(())
    }

    /// Sets a record in the open transaction.
    pub fn set(&mut self, number: u64, value: &K::Record) -> Result<(), Refusal>
        ensures { Called (kind_of K.RecordKind.unit K.RecordKind.reads) (machine N.Nvm.meaning D.Disk.meaning self.old) (Set number value.now) (done_answer result) (machine N.Nvm.meaning D.Disk.meaning self.new) }
    {
        self.admit(&Call::Set(number, ()))?;
        let mut unit = [0; 32];
        K::encode(value, &mut unit);
        self.settings.put(number, &unit, self.disk.blocks())
    }

    /// Sets a record to 32 zero words, which make it absent.
    pub fn clear(&mut self, number: u64) -> Result<(), Refusal>
        ensures { Called (kind_of K.RecordKind.unit K.RecordKind.reads) (machine N.Nvm.meaning D.Disk.meaning self.old) (Clear number) (done_answer result) (machine N.Nvm.meaning D.Disk.meaning self.new) }
    {
        self.admit(&Call::Clear(number))?;
        let unit = [0; 32];
        self.settings.put(number, &unit, self.disk.blocks())
    }

    /// Drops the open transaction.
    pub fn abandon(&mut self) -> Result<(), Refusal>
        ensures { Called (kind_of K.RecordKind.unit K.RecordKind.reads) (machine N.Nvm.meaning D.Disk.meaning self.old) Abandon (done_answer result) (machine N.Nvm.meaning D.Disk.meaning self.new) }
    {
        self.admit(&Call::Abandon)?;
        self.settings.clear();
        self.state = State::Idle;
        Ok(())
    }
}
