//! Power is cut at every act of a call. The memory has 33 units and the disk 2 blocks.
use asked::asks::Ask::*;
use asked::asks::Reply::*;
use asked::asks::*;
use device::disk::Disk;
use device::nvm::Nvm;
use joined::kind::JoinedKind;
use std::alloc::Global;
use std::process::Abort;
use std::test::Fail;
use store::store::Store;

/// The acts of a format on the memory and on the disk.
const FORMAT: u64 = 175;

const FORMAT_ON_DISK: u64 = 4;

/// The acts that settle both devices at the start of a mount: on the disk it is one.
const SETTLE: u64 = 133;

/// The acts of a commit of two records.
const COMMIT: u64 = 112;

/// The acts of a checkpoint on the memory, and on the disk for two blocks.
const EMPTY: u64 = 3;

const EMPTY_ON_DISK: u64 = 3;

/// The number of ways in which the devices come back: old, new and two mixtures.
const WAYS: u64 = 4;

/// How the devices come back.
fn back(way: u64, nvm_acts: u64, disk_acts: u64) -> Ask {
    Restart(match way {
        0 => Back::Old(nvm_acts, disk_acts),
        1 => Back::New(nvm_acts, disk_acts),
        seed => Back::Mixed(seed, nvm_acts, disk_acts),
    })
}

/// Whether an unsettled word of the memory comes back new.
fn comes_new(way: u64, word: u64) -> bool {
    match way {
        0 => false,
        1 => true,
        seed => bit(seed, word),
    }
}

/// Whether a store of a word is there after the restart, if it is the act with this number, counted from 0, and its fence comes two acts
/// later.
fn stored(way: u64, word: u64, act: u64, acts: u64) -> bool {
    acts >= act.saturating_add(3) || acts > act && comes_new(way, word)
}

/// The table that `begun` makes.
fn old_table() -> Table {
    let mut table = [0; 32];
    table[3] = 11;
    table[20] = 12;
    table
}

/// The table after a commit of two more records.
fn new_table() -> Table {
    let mut table = [0; 32];
    table[20] = 12;
    table[5] = 13;
    table
}

/// Starts anew: formats, mounts and commits two records of different blocks.
fn begun<N: Nvm, D: Disk>(heap: Global, store: &mut Store<N, D, JoinedKind>) -> Result<(), Fail> {
    let rows = [
        Row(back(1, PLENTY, PLENTY), Done),
        Row(Format, Done),
        Row(Mount, Blocks(0)),
        Row(Begin, Done),
        Row(Set(3, 11), Done),
        Row(Set(20, 12), Done),
        Row(Commit, Used(3)),
    ];
    follow(heap, store, &rows)
}

/// 5 if power was cut, else the reply.
fn unless(cut: bool, reply: Reply) -> Reply {
    if cut { No(5) } else { reply }
}

// Kept: a way of coming back and the acts of each device go as numbers, since the loops below count them, one at a time.

/// A format with these acts: afterwards there is the old table, no ground mark or an empty table.
fn format_cut<N: Nvm, D: Disk>(
    rt: &impl Abort,
    heap: Global,
    store: &mut Store<N, D, JoinedKind>,
    way: u64,
    acts: u64,
    disk_acts: u64,
) -> Result<(), Fail> {
    begun(heap, store)?;
    let cut = acts < FORMAT || disk_acts < FORMAT_ON_DISK;
    let rows = [
        Row(back(1, acts, disk_acts), Done),
        Row(Format, unless(cut, Done)),
        // No act is left, neither after a cut nor after a format that took all.
        Row(Mount, No(5)),
        Row(back(way, PLENTY, PLENTY), Done),
    ];
    follow(heap, store, &rows)?;
    let done = if disk_acts < FORMAT_ON_DISK {
        if disk_acts == 0 { SETTLE } else { 140 }
    } else {
        acts
    };
    let erased = stored(way, 0, SETTLE, done);
    let marked = stored(way, 0, FORMAT.saturating_sub(3), done);
    if !erased {
        follow(heap, store, &[Row(Mount, Blocks(2))])?;
        assert_eq!(rt; read_all(heap, store)?, old_table());
        return Ok(());
    }
    if !marked {
        follow(
            heap,
            store,
            &[Row(Mount, No(11)), Row(Begin, No(21)), Row(Format, Done)],
        )?;
    }
    follow(heap, store, &[Row(Mount, Blocks(0))])?;
    assert_eq!(rt; read_all(heap, store)?, [0; 32]);
    Ok(())
}

/// Power is cut at every act of a format.
pub fn format_cuts<N: Nvm, D: Disk>(
    rt: &impl Abort,
    heap: Global,
    store: &mut Store<N, D, JoinedKind>,
) -> Result<(), Fail> {
    for way in 0..WAYS {
        for acts in 0..176u64 {
            format_cut(rt, heap, store, way, acts, PLENTY)?;
        }
        for acts in 0..5u64 {
            format_cut(rt, heap, store, way, PLENTY, acts)?;
        }
    }
    Ok(())
}

/// A mount of a used ring with these acts: the table is the same, and the ring is emptied or not.
fn mount_cut<N: Nvm, D: Disk>(
    rt: &impl Abort,
    heap: Global,
    store: &mut Store<N, D, JoinedKind>,
    way: u64,
    acts: u64,
    disk_acts: u64,
) -> Result<(), Fail> {
    begun(heap, store)?;
    let all = SETTLE.saturating_add(EMPTY);
    let all_on_disk = EMPTY_ON_DISK.saturating_add(1);
    let cut = acts < all || disk_acts < all_on_disk;
    let rows = [
        Row(back(1, acts, disk_acts), Done),
        Row(Mount, unless(cut, Blocks(2))),
        Row(Begin, unless(cut, Done)),
        Row(Set(3, 14), unless(cut, Done)),
        Row(Commit, unless(acts <= all || cut, Used(2))),
        Row(Checkpoint, No(5)),
        Row(back(way, PLENTY, PLENTY), Done),
    ];
    follow(heap, store, &rows)?;
    let mut table = old_table();
    let mut blocks = 2;
    if disk_acts >= all_on_disk && stored(way, 8, SETTLE, acts) {
        blocks = 0;
    }
    if !cut && acts > all {
        blocks = 1;
        table[3] = 14;
    }
    follow(heap, store, &[Row(Mount, Blocks(blocks))])?;
    assert_eq!(rt; read_all(heap, store)?, table);
    Ok(())
}

/// Power is cut at every act of a mount.
pub fn mount_cuts<N: Nvm, D: Disk>(
    rt: &impl Abort,
    heap: Global,
    store: &mut Store<N, D, JoinedKind>,
) -> Result<(), Fail> {
    for way in 0..WAYS {
        for acts in 0..137u64 {
            mount_cut(rt, heap, store, way, acts, PLENTY)?;
        }
        for acts in 0..5u64 {
            mount_cut(rt, heap, store, way, PLENTY, acts)?;
        }
    }
    Ok(())
}

/// A commit with these acts, after another one, on a ring that is used: the table is the old or the new one.
fn commit_cut<N: Nvm, D: Disk>(
    rt: &impl Abort,
    heap: Global,
    store: &mut Store<N, D, JoinedKind>,
    way: u64,
    acts: u64,
) -> Result<(), Fail> {
    let before = SETTLE.saturating_add(COMMIT);
    let cut = acts < COMMIT;
    let rows = [
        Row(back(1, PLENTY, PLENTY), Done),
        Row(Format, Done),
        Row(back(1, before.saturating_add(acts), 1), Done),
        Row(Mount, Blocks(0)),
        Row(Begin, Done),
        Row(Set(3, 11), Done),
        Row(Set(20, 12), Done),
        Row(Commit, Used(3)),
        Row(Begin, Done),
        Row(Set(5, 13), Done),
        Row(Clear(3), Done),
        Row(Commit, unless(cut, Used(6))),
        Row(Begin, unless(cut, Done)),
        Row(Set(6, 14), unless(cut, Done)),
        Row(Commit, No(5)),
        Row(back(way, PLENTY, PLENTY), Done),
        Row(Mount, Blocks(2)),
    ];
    follow(heap, store, &rows)?;
    let kept = stored(way, 16, COMMIT.saturating_sub(3), acts);
    assert_eq!(rt;
        read_all(heap, store)?,
        if kept { new_table() } else { old_table() }
    );
    // It stays so.
    follow(
        heap,
        store,
        &[Row(back(0, PLENTY, PLENTY), Done), Row(Mount, Blocks(0))],
    )?;
    assert_eq!(rt;
        read_all(heap, store)?,
        if kept { new_table() } else { old_table() }
    );
    Ok(())
}

/// Power is cut at every act of a commit.
pub fn commit_cuts<N: Nvm, D: Disk>(
    rt: &impl Abort,
    heap: Global,
    store: &mut Store<N, D, JoinedKind>,
) -> Result<(), Fail> {
    for way in 0..WAYS {
        for acts in 0..113u64 {
            commit_cut(rt, heap, store, way, acts)?;
        }
    }
    Ok(())
}

/// A checkpoint, or a close, with these acts: the table is the same, and the ring is emptied or not.
fn checkpoint_cut<N: Nvm, D: Disk>(
    rt: &impl Abort,
    heap: Global,
    store: &mut Store<N, D, JoinedKind>,
    call: Row,
    way: u64,
    acts: u64,
    disk_acts: u64,
) -> Result<(), Fail> {
    let before = SETTLE.saturating_add(COMMIT);
    let cut = acts < EMPTY || disk_acts < EMPTY_ON_DISK;
    let rows = [
        Row(back(1, PLENTY, PLENTY), Done),
        Row(Format, Done),
        Row(
            back(1, before.saturating_add(acts), disk_acts.saturating_add(1)),
            Done,
        ),
        Row(Mount, Blocks(0)),
        Row(Begin, Done),
        Row(Set(3, 11), Done),
        Row(Set(20, 12), Done),
        Row(Commit, Used(3)),
        Row(call.0, unless(cut, call.1)),
        Row(back(way, PLENTY, PLENTY), Done),
    ];
    follow(heap, store, &rows)?;
    let emptied = disk_acts >= EMPTY_ON_DISK && stored(way, 8, 0, acts);
    let blocks = if emptied { 0 } else { 2 };
    follow(heap, store, &[Row(Mount, Blocks(blocks))])?;
    assert_eq!(rt; read_all(heap, store)?, old_table());
    Ok(())
}

/// Power is cut at every act of a checkpoint, and of a close.
pub fn checkpoint_cuts<N: Nvm, D: Disk>(
    rt: &impl Abort,
    heap: Global,
    store: &mut Store<N, D, JoinedKind>,
) -> Result<(), Fail> {
    for way in 0..WAYS {
        for acts in 0..4u64 {
            checkpoint_cut(
                rt,
                heap,
                store,
                Row(Checkpoint, Blocks(2)),
                way,
                acts,
                PLENTY,
            )?;
            checkpoint_cut(
                rt,
                heap,
                store,
                Row(Checkpoint, Blocks(2)),
                way,
                PLENTY,
                acts,
            )?;
            checkpoint_cut(rt, heap, store, Row(Close, Done), way, acts, PLENTY)?;
            checkpoint_cut(rt, heap, store, Row(Close, Done), way, PLENTY, acts)?;
        }
    }
    Ok(())
}

/// All of them on one pair of devices.
pub fn all_cuts<N: Nvm + Drop, D: Disk + Drop>(
    rt: &impl Abort,
    heap: Global,
    nvm: N,
    disk: D,
) -> Result<(), Fail> {
    let mut store = store_of(heap, nvm, disk)?;
    format_cuts(rt, heap, &mut store)?;
    mount_cuts(rt, heap, &mut store)?;
    commit_cuts(rt, heap, &mut store)?;
    checkpoint_cuts(rt, heap, &mut store)
}
