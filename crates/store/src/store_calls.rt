//! The calls of a store, one by one. Those of a transaction hand out, are shown or take its ticket.
ghost use Rattle.std.specs.Prelude.{◌≡◌, IfOk};
ghost use Rattle.calls.specs.declared.call.Call.TheVariants.{Format, Mount, Begin, Set, Clear, Read, Commit, Abandon, Checkpoint, Close};
ghost use Rattle.calls.specs.Steps.{MachineRestarted};
ghost use Rattle.order.specs.Order.{kind_of};
ghost use Rattle.calling.specs.Seen.{done_answer, blocks_answer, used_answer};
ghost use Rattle.engine.specs.Called.{Called};
ghost use Rattle.device_calls.specs.Answers.{read_answer};
ghost use Rattle.store.specs.Machine.{machine};
ghost use Rattle.store.specs.Tickets.{commit_answer, TicketOf};

use crate::store::Store;
use crate::ticket::{NotCommitted, Ticket, hands_back};
use device::disk::Disk;
use device::nvm::Nvm;
use device_calls::checkpoint::{checkpoint, close};
use device_calls::commit::commit;
use device_calls::format::format;
use device_calls::mount::mount;
use device_calls::read::read;
use device_calls::restart::restart;
use kinds::kind::RecordKind;
use promise::request::Return;
use refusal::reason::Refusal;

impl<N: Nvm, D: Disk, K: RecordKind> Store<N, D, K> {
    /// Formats the devices of an unmounted store: afterwards every record is absent.
    pub fn format(&mut self) -> Result<(), Refusal>
        ensures { Called (kind_of K.RecordKind.unit K.RecordKind.reads) (machine N.Nvm.meaning D.Disk.meaning self.old) Format (done_answer result) (machine N.Nvm.meaning D.Disk.meaning self.new) }
    {
        format(&mut self.engine)
    }

    /// Mounts the store. Answers the number of blocks that it wrote to empty the ring.
    pub fn mount(&mut self) -> Result<usize, Refusal>
        ensures { Called (kind_of K.RecordKind.unit K.RecordKind.reads) (machine N.Nvm.meaning D.Disk.meaning self.old) Mount (blocks_answer result) (machine N.Nvm.meaning D.Disk.meaning self.new) }
    {
        mount(&mut self.engine)
    }

    /// Opens a transaction and hands out its ticket, which must go back through commit or abandon.
    pub fn begin(&mut self) -> Result<Ticket, Refusal>
        ensures call { Called (kind_of K.RecordKind.unit K.RecordKind.reads) (machine N.Nvm.meaning D.Disk.meaning self.old) Begin (done_answer result) (machine N.Nvm.meaning D.Disk.meaning self.new) }
        ensures ticket { IfOk result (λ t. t.live ≡ 1) }
    {
        self.engine.begin()?;
        Ok(Ticket { live: 1 })
    }

    /// Sets a record in the open transaction. A record that is set again keeps its position and takes the new unit.
    pub fn set(&mut self, ticket: &Ticket, number: u64, value: &K::Record) -> Result<(), Refusal>
        requires { ticket.now.live ≡ 1 }
        ensures { Called (kind_of K.RecordKind.unit K.RecordKind.reads) (machine N.Nvm.meaning D.Disk.meaning self.old) (Set number value.now) (done_answer result) (machine N.Nvm.meaning D.Disk.meaning self.new) }
    {
        self.engine.set(number, value)
    }

    /// Makes a record absent in the open transaction.
    pub fn clear(&mut self, ticket: &Ticket, number: u64) -> Result<(), Refusal>
        requires { ticket.now.live ≡ 1 }
        ensures { Called (kind_of K.RecordKind.unit K.RecordKind.reads) (machine N.Nvm.meaning D.Disk.meaning self.old) (Clear number) (done_answer result) (machine N.Nvm.meaning D.Disk.meaning self.new) }
    {
        self.engine.clear(number)
    }

    /// The record with a number, if there is one. In an open transaction its own settings come first.
    pub fn read(&mut self, number: u64) -> Result<Option<K::Record>, Refusal>
        ensures { Called (kind_of K.RecordKind.unit K.RecordKind.reads) (machine N.Nvm.meaning D.Disk.meaning self.old) (Read number) (read_answer result) (machine N.Nvm.meaning D.Disk.meaning self.new) }
    {
        read(&mut self.engine, number)
    }

    /// Commits the open transaction, with no look at its ticket.
    fn commit_now(&mut self) -> Result<usize, Refusal>
        ensures { Called (kind_of K.RecordKind.unit K.RecordKind.reads) (machine N.Nvm.meaning D.Disk.meaning self.old) Commit (used_answer result) (machine N.Nvm.meaning D.Disk.meaning self.new) }
    {
        commit(&mut self.engine)
    }

    /// Commits the open transaction. Answers how many places of the ring are used then. If it is refused because the store is not mounted,
    /// no transaction is open or the ring is full, the ticket comes back inside the refusal; else it is spent.
    pub fn commit(&mut self, mut ticket: Ticket) -> Result<usize, NotCommitted>
        requires { ticket.live ≡ 1 }
        ensures call { Called (kind_of K.RecordKind.unit K.RecordKind.reads) (machine N.Nvm.meaning D.Disk.meaning self.old) Commit (commit_answer result) (machine N.Nvm.meaning D.Disk.meaning self.new) }
        ensures ticket { TicketOf result }
    {
        match self.commit_now() {
            Ok(used) => {
                ticket.live = 0;
                Ok(used)
            }
            Err(reason) => {
                if hands_back(reason) {
                    return Err(NotCommitted::Back(reason, ticket));
                }
                ticket.live = 0;
                Err(NotCommitted::Spent(reason))
            }
        }
    }

    /// Drops the open transaction. It takes the ticket whatever it answers, in the dark too.
    pub fn abandon(&mut self, mut ticket: Ticket) -> Result<(), Refusal>
        requires { ticket.live ≡ 1 }
        ensures { Called (kind_of K.RecordKind.unit K.RecordKind.reads) (machine N.Nvm.meaning D.Disk.meaning self.old) Abandon (done_answer result) (machine N.Nvm.meaning D.Disk.meaning self.new) }
    {
        ticket.live = 0;
        self.engine.abandon()
    }

    /// Writes the homes that the ring names and empties the ring. Answers the number of blocks written.
    pub fn checkpoint(&mut self) -> Result<usize, Refusal>
        ensures { Called (kind_of K.RecordKind.unit K.RecordKind.reads) (machine N.Nvm.meaning D.Disk.meaning self.old) Checkpoint (blocks_answer result) (machine N.Nvm.meaning D.Disk.meaning self.new) }
    {
        checkpoint(&mut self.engine)
    }

    /// Checkpoints and unmounts the store.
    pub fn close(&mut self) -> Result<(), Refusal>
        ensures { Called (kind_of K.RecordKind.unit K.RecordKind.reads) (machine N.Nvm.meaning D.Disk.meaning self.old) Close (done_answer result) (machine N.Nvm.meaning D.Disk.meaning self.new) }
    {
        close(&mut self.engine)
    }

    /// Power returns: this store ends, and its two devices are a new unmounted one. A ticket that is still held must be abandoned.
    pub fn restart(mut self, back: &Return) -> Store<N, D, K>
        ensures restarted { MachineRestarted (machine N.Nvm.meaning D.Disk.meaning self) (machine N.Nvm.meaning D.Disk.meaning result) }
        ensures nvm { N.Nvm.comes self.engine.nvm back.now.nvm back.now.nvm_acts result.engine.nvm }
        ensures disk { D.Disk.comes self.engine.disk back.now.disk back.now.disk_acts result.engine.disk }
    {
        restart(&mut self.engine, back);
        self
    }
}
