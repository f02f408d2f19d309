//! Clients of the store's ticket: one tries a setting and gives the transaction up, one gives back a ticket that may be held.
#![tactic(auto)]

ghost use Rattle.std.specs.Prelude.{◌≡◌, IfSome};
ghost use Rattle.order.specs.Order.{kind_of};
ghost use Rattle.store.specs.Machine.{machine};
ghost use Rattle.attempt.specs.Tried.{Tried, GivenBack};

use device::disk::Disk;
use device::nvm::Nvm;
use kinds::kind::RecordKind;
use refusal::reason::Refusal;
use store::store::Store;
use store::ticket::Ticket;

/// What setting a record answers in a transaction of its own, which is abandoned whatever that answer is.
pub fn try_set<N: Nvm, D: Disk, K: RecordKind>(
    store: &mut Store<N, D, K>,
    number: u64,
    value: &K::Record,
) -> Result<(), Refusal>
    ensures { Tried (kind_of K.RecordKind.unit K.RecordKind.reads) (machine N.Nvm.meaning D.Disk.meaning store.old) number value.now result (machine N.Nvm.meaning D.Disk.meaning store.new) }
{
    let ticket = store.begin()?;
    let answer = store.set(&ticket, number, value);
    let _ = store.abandon(ticket);
    answer
}

/// Gives back a ticket that may be held, as a program does before it ends.
pub fn give_back<N: Nvm, D: Disk, K: RecordKind>(
    store: &mut Store<N, D, K>,
    held: Option<Ticket>,
) -> Result<(), Refusal>
    requires { IfSome held (λ t. t.live ≡ 1) }
    ensures { GivenBack (kind_of K.RecordKind.unit K.RecordKind.reads) held (machine N.Nvm.meaning D.Disk.meaning store.old) result (machine N.Nvm.meaning D.Disk.meaning store.new) }
{
    match held {
        Some(ticket) => store.abandon(ticket),
        None => Ok(()),
    }
}
