//! The tables.
use crate::tables::*;
use device::comeback::Comeback;
use device::disk::Disk;
use disks::patient::PatientDisk;
use disks::prompt::PromptDisk;
use refusal::reason::Refusal::{Beyond, Dark, Unsettled};
use std::alloc::Global;
use std::test::Fail;

#[test]
fn patient_settles_at_syncs(rt: HostRuntime) -> Result<(), Fail> {
    let mut disk = PatientDisk::zeroed(rt.alloc(), 2, 4)?;
    let rows = [
        Row(Step::Write(0, 7), Ok(()), 3, waits(7, 0), still(0)),
        Row(Step::Write(0, 8), Err(Unsettled), 3, waits(7, 0), still(0)),
        Row(Step::Write(2, 8), Err(Beyond), 3, waits(7, 0), still(0)),
        Row(Step::Write(1, 9), Ok(()), 2, waits(7, 0), waits(9, 0)),
        Row(Step::Sync, Ok(()), 1, still(7), still(9)),
        Row(Step::Write(0, 5), Ok(()), 0, waits(5, 7), still(9)),
        Row(Step::Write(2, 6), Err(Beyond), 0, waits(5, 7), still(9)),
        Row(Step::Sync, Err(Dark), 0, waits(5, 7), still(9)),
        Row(Step::Write(2, 6), Err(Dark), 0, waits(5, 7), still(9)),
    ];
    follow(&rt, &mut disk, &rows);
    Ok(())
}

#[test]
fn prompt_settles_at_writes(rt: HostRuntime) -> Result<(), Fail> {
    let heap = rt.alloc();
    let mut disk = PromptDisk::new(
        heap,
        vec![in heap; 3; 1024]?,
        vec![in heap; 4; 1024]?,
        vec![in heap; true; 16]?,
        2,
    )?;
    assert_eq!(rt; seen(disk.contents(), 1), waits(4, 3));
    let rows = [
        Row(
            Step::Write(0, 7),
            Err(Unsettled),
            2,
            waits(4, 3),
            waits(4, 3),
        ),
        Row(Step::Sync, Ok(()), 1, still(4), still(4)),
        Row(Step::Write(0, 7), Ok(()), 0, still(7), still(4)),
        Row(Step::Write(1, 9), Err(Dark), 0, still(7), still(4)),
    ];
    follow(&rt, &mut disk, &rows);
    Ok(())
}

#[test]
fn prompt_settles_what_waited_before(rt: HostRuntime) -> Result<(), Fail> {
    let heap = rt.alloc();
    let mut waiting = vec![in heap; false; 8]?;
    waiting.extend_from_slice(&[true; 8])?;
    let mut disk = PromptDisk::new(
        heap,
        vec![in heap; 3; 1024]?,
        vec![in heap; 4; 1024]?,
        waiting,
        1,
    )?;
    // The first block is not marked as waiting, so it is settled at its present words.
    assert_eq!(rt; seen(disk.contents(), 0), still(4));
    assert_eq!(rt; seen(disk.contents(), 1), waits(4, 3));
    follow(
        &rt,
        &mut disk,
        &[Row(Step::Write(0, 7), Ok(()), 0, still(7), still(4))],
    );
    Ok(())
}

#[test]
fn refused_reads_leave_the_buffer(rt: HostRuntime) -> Result<(), Fail> {
    let mut disk = PatientDisk::zeroed(rt.alloc(), 1, 0)?;
    let mut buf = [6; 512];
    assert_eq!(rt; disk.read(1, &mut buf), Err(Beyond));
    assert_eq!(rt; buf[0], 6);
    assert_eq!(rt; disk.read(0, &mut buf), Ok(()));
    assert_eq!(rt; buf[511], 0);
    assert_eq!(rt; disk.sync(), Err(Dark));
    buf[0] = 6;
    assert_eq!(rt; disk.read(1, &mut buf), Err(Dark));
    assert_eq!(rt; buf[0], 6);
    Ok(())
}

#[test]
fn dark_after_every_act_number(rt: HostRuntime) -> Result<(), Fail> {
    let steps = [Step::Write(0, 1), Step::Write(1, 2), Step::Sync];
    for acts in 0..4 {
        let mut disk = PatientDisk::zeroed(rt.alloc(), 2, acts)?;
        for (i, step) in (0..).zip(steps) {
            assert_eq!(rt; perform(&mut disk, step).is_ok(), i < acts);
        }
        assert_eq!(rt; disk.is_dark(), acts < 3);
    }
    Ok(())
}

/// The size of a disk made of lists of these lengths.
fn size_of(heap: Global, settled: usize, present: usize, waiting: usize) -> Result<usize, Fail> {
    let disk = PatientDisk::new(
        heap,
        vec![in heap; 0; settled]?,
        vec![in heap; 0; present]?,
        vec![in heap; false; waiting]?,
        0,
    )?;
    Ok(disk.blocks())
}

#[test]
fn sizes_by_the_shortest_list(rt: HostRuntime) -> Result<(), Fail> {
    let heap = rt.alloc();
    assert_eq!(rt; size_of(heap, 1029, 1536, 19)?, 2);
    assert_eq!(rt; size_of(heap, 2048, 1535, 64)?, 2);
    assert_eq!(rt; size_of(heap, 2048, 2048, 15)?, 1);
    assert_eq!(rt; size_of(heap, 511, 2048, 64)?, 0);
    Ok(())
}

#[test]
fn sectors_come_back_as_chosen(rt: HostRuntime) -> Result<(), Fail> {
    let heap = rt.alloc();
    let mut disk = PatientDisk::zeroed(heap, 2, 2)?;
    assert_eq!(rt; perform(&mut disk, Step::Write(0, 7)), Ok(()));
    assert_eq!(rt; perform(&mut disk, Step::Write(1, 9)), Ok(()));
    assert_eq!(rt; perform(&mut disk, Step::Sync), Err(Dark));
    let mut chosen = vec![in heap; false; 2]?;
    chosen.extend_from_slice(&[true; 7])?;
    disk.restart(&Comeback::Chosen(chosen), 1);
    assert_eq!(rt; seen(disk.contents(), 0), still(0));
    assert_eq!(rt; seen(disk.contents(), 1), still(9));
    assert_eq!(rt; disk.contents().present(128), Some(7));
    assert_eq!(rt; disk.contents().present(576), Some(0));
    assert_eq!(rt; disk.contents().acts_left(), 1);
    assert_eq!(rt; perform(&mut disk, Step::Write(1, 8)), Ok(()));
    disk.restart(&Comeback::Old, 1);
    assert_eq!(rt; seen(disk.contents(), 1), still(9));
    assert_eq!(rt; perform(&mut disk, Step::Write(1, 8)), Ok(()));
    disk.restart(&Comeback::New, 0);
    assert_eq!(rt; seen(disk.contents(), 1), still(8));
    Ok(())
}
