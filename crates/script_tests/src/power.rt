//! Power that is cut at every act of a mount, a commit and a checkpoint, then a restart, and what a read shows.
use crate::runs::ends_with;
use std::alloc::Global;
use std::test::Fail;

/// A script that mounts with so many acts of the memory left, commits, and after a restart mounts again and shows the record.
fn committed(heap: Global, acts: u64, back: &str) -> Result<String, Fail> {
    Ok(format!(in heap;
        "format\nrestart\told\t{acts}\t1000000\nmount\nbegin\nmast\t5\t7\tRidge\ncommit\nrestart\t{back}\t1000000\t1000000\nmount\nshow\t5\n"
    )?)
}

/// The same with a checkpoint after the commit, for so many acts of the memory and of the disk.
fn checkpointed(heap: Global, nvm: u64, disk: u64, back: &str) -> Result<String, Fail> {
    Ok(format!(in heap;
        "format\nrestart\told\t{nvm}\t{disk}\nmount\nbegin\nmast\t5\t7\tRidge\ncommit\ncheckpoint\nrestart\t{back}\t1000000\t1000000\nmount\nshow\t5\n"
    )?)
}

fn shows_mast(heap: Global, script: &String) -> Result<bool, Fail> {
    ends_with(heap, script.as_bytes(), b"\ti\t0\tmast\t7\tRidge\n")
}

fn shows_absent(heap: Global, script: &String) -> Result<bool, Fail> {
    ends_with(heap, script.as_bytes(), b"\ti\t0\tabsent\n")
}

/// A mount of an empty ring takes 133 acts of the memory, a commit of one record 76. With old contents the record is there after all
/// of them; with new ones from the store of the tail on, which is the 74th.
#[test]
fn a_commit_is_cut_at_every_act(rt: HostRuntime) -> Result<(), Fail> {
    let heap = rt.alloc();
    for acts in 0..212u64 {
        let old = committed(heap, acts, "old")?;
        let new = committed(heap, acts, "new")?;
        if acts < 209 {
            assert!(rt; shows_absent(heap, &old)?);
        } else {
            assert!(rt; shows_mast(heap, &old)?);
        }
        if acts < 207 {
            assert!(rt; shows_absent(heap, &new)?);
        } else {
            assert!(rt; shows_mast(heap, &new)?);
        }
    }
    Ok(())
}

/// A checkpoint of one block takes 3 acts of the memory and 2 of the disk, after 1 of the mount: the record stays wherever it is cut.
#[test]
fn a_checkpoint_is_cut_at_every_act(rt: HostRuntime) -> Result<(), Fail> {
    let heap = rt.alloc();
    for acts in 209..214u64 {
        for disk in 1..5u64 {
            let old = checkpointed(heap, acts, disk, "old")?;
            let new = checkpointed(heap, acts, disk, "new")?;
            assert!(rt; shows_mast(heap, &old)?);
            assert!(rt; shows_mast(heap, &new)?);
        }
    }
    Ok(())
}

/// The act numbers of a restart: the first is the memory's, the second the disk's, and an act number of 0 lets the store be until an
/// act is tried.
#[test]
fn each_device_has_its_own_acts(rt: HostRuntime) -> Result<(), Fail> {
    let heap = rt.alloc();
    let nvm =
        b"format\nrestart\tnew\t132\t1\nmount\nrestart\tnew\t133\t1\nmount\nrestart\tnew\t133\t0\nmount\nrestart\tnew\t0\t0\nshow\t1\nbegin";
    let said =
        b"\n2\tu\t0\t-\n3\td\t5\t-\n4\tu\t0\t-\n5\ti\t0\t0\n6\tu\t0\t-\n7\td\t5\t-\n8\tu\t0\t-\n9\tu\t21\t-\n10\tu\t21\t-\n";
    assert!(rt; ends_with(heap, nvm, said)?);
    Ok(())
}
