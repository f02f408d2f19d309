//! Every refusal of every call, in its order where there are several reasons.
use asked::asks::Ask::*;
use asked::asks::Reply::*;
use asked::asks::*;
use device::disk::Disk;
use device::nvm::Nvm;
use joined::kind::JoinedKind;
use std::alloc::Global;
use std::process::Abort;
use std::test::Fail;
use store::store::Store;

const AFRESH: Ask = Restart(Back::New(PLENTY, PLENTY));

/// The refusals by the state alone, and 31 after them. The disk has 2 blocks.
const STATES: [Row; 34] = [
    Row(Mount, No(11)),
    Row(Begin, No(21)),
    Row(Set(32, 1), No(21)),
    Row(Clear(32), No(21)),
    Row(Read(32), No(21)),
    Row(Commit, No(21)),
    Row(Abandon, No(21)),
    Row(Checkpoint, No(21)),
    Row(Close, No(21)),
    Row(Format, Done),
    Row(Format, Done),
    Row(Mount, Blocks(0)),
    Row(Format, No(20)),
    Row(Mount, No(20)),
    Row(Set(32, 1), No(23)),
    Row(Clear(32), No(23)),
    Row(Commit, No(23)),
    Row(Abandon, No(23)),
    Row(Read(32), No(31)),
    Row(Read(31), Absent),
    Row(Checkpoint, Blocks(0)),
    Row(Begin, Done),
    Row(Begin, No(22)),
    Row(Close, No(22)),
    Row(Format, No(20)),
    Row(Mount, No(20)),
    Row(Set(32, 1), No(31)),
    Row(Clear(32), No(31)),
    Row(Read(u64::MAX), No(31)),
    Row(Checkpoint, Blocks(0)),
    Row(Abandon, Done),
    Row(Abandon, No(23)),
    Row(Close, Done),
    Row(Close, No(21)),
];

/// With 30 records set: 31 comes before 32, and what is set already passes. Then the ring is full: 33 until a checkpoint, which keeps the
/// open transaction.
const FULL: [Row; 26] = [
    Row(Set(30, 1), No(32)),
    Row(Clear(31), No(32)),
    Row(Set(32, 1), No(31)),
    Row(Clear(32), No(31)),
    Row(Set(0, 501), Done),
    Row(Clear(29), Done),
    Row(Read(0), Found(501)),
    Row(Read(29), Absent),
    Row(Read(30), Absent),
    Row(Commit, Used(31)),
    Row(Read(0), Found(501)),
    Row(Read(29), Absent),
    Row(Read(28), Found(129)),
    Row(Begin, Done),
    Row(Commit, Used(31)),
    Row(Begin, Done),
    Row(Set(31, 2), Done),
    Row(Commit, No(33)),
    Row(Begin, No(22)),
    Row(Read(31), Found(2)),
    Row(Commit, No(33)),
    Row(Checkpoint, Blocks(2)),
    Row(Commit, Used(2)),
    Row(Read(31), Found(2)),
    Row(Begin, Done),
    Row(Commit, Used(2)),
];

/// The table after a restart: what is in an open transaction is gone, and what is committed is there.
const RETURNED: [Row; 8] = [
    Row(Begin, Done),
    Row(Clear(31), Done),
    Row(Read(31), Absent),
    Row(AFRESH, Done),
    Row(Read(31), No(21)),
    Row(Mount, Blocks(1)),
    Row(Read(31), Found(2)),
    Row(Close, Done),
];

/// Refusals of a store on a memory of 33 units of zeros and a disk of 2 blocks.
pub fn by_state<N: Nvm + Drop, D: Disk + Drop>(
    rt: &impl Abort,
    heap: Global,
    nvm: N,
    disk: D,
) -> Result<(), Fail> {
    let mut store = store_of(heap, nvm, disk)?;
    follow(heap, &mut store, &STATES)?;
    follow(heap, &mut store, &[Row(Mount, Blocks(0))])?;
    set_many(heap, &mut store, 30)?;
    follow(heap, &mut store, &FULL)?;
    // Two places are used: 28 records fit, 29 do not.
    set_many(heap, &mut store, 29)?;
    follow(heap, &mut store, &[Row(Commit, No(33)), Row(Abandon, Done)])?;
    follow(heap, &mut store, &RETURNED)?;
    follow(heap, &mut store, &[Row(Mount, Blocks(0))])?;
    set_many(heap, &mut store, 1)?;
    follow(heap, &mut store, &[Row(Commit, Used(2))])?;
    set_many(heap, &mut store, 28)?;
    follow(heap, &mut store, &[Row(Commit, Used(31))])?;
    in_the_dark(rt, heap, &mut store)
}

/// 5 before all else, in every state.
const DARK: [Row; 11] = [
    Row(Format, No(5)),
    Row(Mount, No(5)),
    Row(Begin, No(5)),
    Row(Set(99, 1), No(5)),
    Row(Clear(99), No(5)),
    Row(Read(99), No(5)),
    Row(Read(0), No(5)),
    Row(Commit, No(5)),
    Row(Abandon, No(5)),
    Row(Checkpoint, No(5)),
    Row(Close, No(5)),
];

/// Power goes while the store is unmounted, idle and open. What makes no act is done while power is there.
fn in_the_dark<N: Nvm, D: Disk>(
    rt: &impl Abort,
    heap: Global,
    store: &mut Store<N, D, JoinedKind>,
) -> Result<(), Fail> {
    let unmounted = [
        Row(Restart(Back::New(0, 0)), Done),
        Row(Begin, No(21)),
        Row(Mount, No(5)),
    ];
    follow(heap, store, &unmounted)?;
    follow(heap, store, &DARK)?;
    let idle = [
        Row(AFRESH, Done),
        Row(Format, Done),
        Row(Restart(Back::New(133 + 76, 1)), Done),
        Row(Mount, Blocks(0)),
        Row(Begin, Done),
        Row(Set(3, 7), Done),
        Row(Commit, Used(2)),
        Row(Read(3), Found(7)),
        Row(Checkpoint, No(5)),
    ];
    follow(heap, store, &idle)?;
    assert!(rt; store.is_dark());
    follow(heap, store, &DARK)?;
    let open = [
        Row(Restart(Back::New(136, 3)), Done),
        Row(Mount, Blocks(1)),
        Row(Begin, Done),
        Row(Commit, Used(0)),
        Row(Checkpoint, Blocks(0)),
        Row(Begin, Done),
        Row(Set(3, 8), Done),
        Row(Read(3), Found(8)),
        Row(Commit, No(5)),
    ];
    follow(heap, store, &open)?;
    follow(heap, store, &DARK)?;
    let returned = [
        Row(AFRESH, Done),
        Row(Mount, Blocks(0)),
        Row(Read(3), Found(7)),
    ];
    follow(heap, store, &returned)
}

/// On a disk of one block record 15 is the last.
pub fn one_block<N: Nvm + Drop, D: Disk + Drop>(heap: Global, nvm: N, disk: D) -> Result<(), Fail> {
    let mut store = store_of(heap, nvm, disk)?;
    let rows = [
        Row(Format, Done),
        Row(Mount, Blocks(0)),
        Row(Begin, Done),
        Row(Set(15, 7), Done),
        Row(Set(16, 7), No(31)),
        Row(Clear(16), No(31)),
        Row(Read(15), Found(7)),
        Row(Read(16), No(31)),
        Row(Commit, Used(2)),
        Row(Close, Done),
        Row(Mount, Blocks(0)),
        Row(Read(15), Found(7)),
        Row(Read(16), No(31)),
    ];
    follow(heap, &mut store, &rows)
}

/// Format and mount of devices that have these sizes: refused with 10, which comes before 11, or 5 if one is dark.
pub fn bad_size<N: Nvm + Drop, D: Disk + Drop>(
    heap: Global,
    nvm: N,
    disk: D,
    number: u32,
) -> Result<(), Fail> {
    let mut store = store_of(heap, nvm, disk)?;
    let rows = [
        Row(Mount, No(number)),
        Row(Format, No(number)),
        Row(Mount, No(number)),
    ];
    follow(heap, &mut store, &rows)
}

/// Devices of sizes at a limit: the last record is there.
pub fn good_size<N: Nvm + Drop, D: Disk + Drop>(
    heap: Global,
    nvm: N,
    disk: D,
    last: u64,
) -> Result<(), Fail> {
    let mut store = store_of(heap, nvm, disk)?;
    let rows = [
        Row(Mount, No(11)),
        Row(Format, Done),
        Row(Mount, Blocks(0)),
        Row(Begin, Done),
        Row(Set(last, 6), Done),
        Row(Set(last.saturating_add(1), 6), No(31)),
        Row(Commit, Used(2)),
        Row(Close, Done),
        Row(Mount, Blocks(0)),
        Row(Read(last), Found(6)),
    ];
    follow(heap, &mut store, &rows)
}
