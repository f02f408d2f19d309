//! What becomes of tickets. A ticket is not let go while it is held, so answers are compared when it is given back.
ghost use Rattle.std.specs.Prelude.{◌≡◌};

use asked::asks::*;
use calls::state::State;
use device::comeback::Comeback;
use device::disk::Disk;
use device::nvm::Nvm;
use joined::kind::JoinedKind;
use promise::request::Return;
use refusal::reason::Refusal;
use std::alloc::Global;
use std::process::Abort;
use std::test::Fail;
use store::store::Store;
use store::ticket::{NotCommitted, Ticket};

/// How a commit ended.
#[derive(Clone, Copy, PartialEq, Eq, Debug)]
pub enum End {
    /// With so many places used.
    Used(usize),
    /// Refused with this number; the ticket came back.
    Back(u32),
    /// Refused with this number; the ticket is spent.
    Spent(u32),
}

/// The number of a refusal, or 0.
// Kept: by its number, which the rules name, so that a test can be read beside them.
fn number(answer: Result<(), Refusal>) -> u32 {
    match answer {
        Ok(()) => 0,
        Err(refusal) => refusal.number(),
    }
}

/// Commits with a ticket. If it comes back it is given up to the same store.
fn commit<N: Nvm, D: Disk>(store: &mut Store<N, D, JoinedKind>, ticket: Ticket) -> End
    requires { ticket.live ≡ 1 }
{
    match store.commit(ticket) {
        Ok(used) => End::Used(used),
        Err(NotCommitted::Back(refusal, back)) => {
            let _ = store.abandon(back);
            End::Back(refusal.number())
        }
        Err(NotCommitted::Spent(refusal)) => End::Spent(refusal.number()),
    }
}

/// A transaction of one record: how it ended. A record beyond the end is refused in it, and a second begin.
fn transaction<N: Nvm, D: Disk>(
    rt: &impl Abort,
    store: &mut Store<N, D, JoinedKind>,
    value: u64,
) -> Result<End, Fail> {
    let record = record_of(value)?;
    let ticket = store.begin()?;
    let set = number(store.set(&ticket, 3, &record));
    let cleared = number(store.clear(&ticket, 32));
    let closed = number(store.close());
    let end = commit(store, ticket);
    assert_eq!(rt; [set, cleared, closed], [0, 31, 22]);
    Ok(end)
}

/// Commits in the second store with a ticket of the first, which stays open.
fn crossed<N: Nvm, D: Disk>(
    first: &mut Store<N, D, JoinedKind>,
    second: &mut Store<N, D, JoinedKind>,
) -> Result<End, Fail> {
    let ticket = first.begin()?;
    Ok(commit(second, ticket))
}

/// Each store ends its transaction with the ticket of the other.
fn exchanged<N: Nvm, D: Disk>(
    first: &mut Store<N, D, JoinedKind>,
    second: &mut Store<N, D, JoinedKind>,
) -> Result<[End; 2], Fail> {
    let mine = first.begin()?;
    match second.begin() {
        Ok(theirs) => Ok([commit(second, mine), commit(first, theirs)]),
        Err(_) => {
            let _ = first.abandon(mine);
            Err(Fail::new("the second store cannot begin"))
        }
    }
}

/// A commit to a full ring, which hands the ticket back, a checkpoint, and the same ticket again.
fn tried_again<N: Nvm, D: Disk>(store: &mut Store<N, D, JoinedKind>) -> Result<End, Fail> {
    let record = record_of(7)?;
    let ticket = store.begin()?;
    let _ = store.set(&ticket, 3, &record);
    match store.commit(ticket) {
        Err(NotCommitted::Back(_, back)) => {
            let _ = store.checkpoint();
            Ok(commit(store, back))
        }
        Err(NotCommitted::Spent(_)) => Err(Fail::new("the ticket is spent")),
        Ok(_) => Err(Fail::new("the ring is not full")),
    }
}

/// Power goes while a ticket is held: an abandon takes it in the dark.
fn abandoned_in_the_dark<N: Nvm, D: Disk>(
    store: &mut Store<N, D, JoinedKind>,
) -> Result<[u32; 2], Fail> {
    let ticket = store.begin()?;
    let set = match store.checkpoint() {
        Ok(_) => 0,
        Err(refusal) => refusal.number(),
    };
    Ok([set, number(store.abandon(ticket))])
}

/// Tickets of one store in another. Both are formatted, and the first is mounted.
fn of_another_store<N: Nvm, D: Disk>(
    rt: &impl Abort,
    heap: Global,
    first: &mut Store<N, D, JoinedKind>,
    second: &mut Store<N, D, JoinedKind>,
) -> Result<(), Fail> {
    assert_eq!(rt; crossed(first, second)?, End::Back(21));
    follow(heap, first, &[Row(Ask::Abandon, Reply::Done)])?;
    follow(heap, second, &[Row(Ask::Mount, Reply::Blocks(0))])?;
    assert_eq!(rt; crossed(first, second)?, End::Back(23));
    follow(heap, first, &[Row(Ask::Abandon, Reply::Done)])?;
    assert_eq!(rt; exchanged(first, second)?, [End::Used(0), End::Used(0)]);
    Ok(())
}

/// The ticket of a full ring.
fn of_a_full_ring<N: Nvm, D: Disk>(
    rt: &impl Abort,
    heap: Global,
    store: &mut Store<N, D, JoinedKind>,
) -> Result<(), Fail> {
    assert_eq!(rt; transaction(rt, store, 5)?, End::Used(2));
    set_many(heap, store, 28)?;
    follow(heap, store, &[Row(Ask::Commit, Reply::Used(31))])?;
    assert_eq!(rt; transaction(rt, store, 6)?, End::Back(33));
    assert_eq!(rt; store.state(), State::Idle);
    assert_eq!(rt; tried_again(store)?, End::Used(2));
    assert_eq!(rt; store.read(3)?, Some(record_of(7)?));
    Ok(())
}

/// Tickets and power: after each restart there is power for a mount and a commit.
fn of_a_dark_store<N: Nvm + Drop, D: Disk + Drop>(
    rt: &impl Abort,
    store: Store<N, D, JoinedKind>,
) -> Result<(), Fail> {
    let back = Return {
        nvm: Comeback::New,
        disk: Comeback::Old,
        nvm_acts: 136 + 76,
        disk_acts: 3,
    };
    let mut store = store.restart(&back);
    assert_eq!(rt; store.mount()?, 1);
    assert_eq!(rt; transaction(rt, &mut store, 8)?, End::Used(2));
    assert_eq!(rt; transaction(rt, &mut store, 9)?, End::Spent(5));
    assert_eq!(rt; store.state(), State::Open);
    let mut store = store.restart(&back);
    assert_eq!(rt; store.mount()?, 1);
    assert_eq!(rt; transaction(rt, &mut store, 10)?, End::Used(2));
    assert_eq!(rt; abandoned_in_the_dark(&mut store)?, [5, 5]);
    Ok(())
}

/// Two stores on zeroed devices of 33 units and 2 blocks.
pub fn tickets<N: Nvm + Drop, D: Disk + Drop>(
    rt: &impl Abort,
    heap: Global,
    one: (N, D),
    other: (N, D),
) -> Result<(), Fail> {
    let (nvm, disk) = one;
    let mut first = store_of(heap, nvm, disk)?;
    let (nvm, disk) = other;
    let mut second = store_of(heap, nvm, disk)?;
    first.format()?;
    second.format()?;
    assert_eq!(rt; first.mount()?, 0);
    of_another_store(rt, heap, &mut first, &mut second)?;
    of_a_full_ring(rt, heap, &mut first)?;
    of_a_dark_store(rt, first)
}
