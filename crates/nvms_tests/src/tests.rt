//! The tables.
use crate::tables::Look::*;
use crate::tables::Step::*;
use crate::tables::*;
use device::comeback::Comeback;
use device::nvm::Nvm;
use nvm_words::mark::Mark;
use nvms::devices::{EightLineNvm, PatientNvm};
use odd_nvm::devices::BufferedNvm;
use std::alloc::Global;
use std::process::Abort;
use std::test::Fail;

#[test]
fn patient_settles_at_fences(rt: HostRuntime) -> Result<(), Fail> {
    let mut nvm = PatientNvm::zeroed(rt.alloc(), 1, 7)?;
    let rows = [
        Row(Store(0, 7), 0, Waits(7, 0), Still(0), Still(0)),
        Row(Store(0, 8), 2, Waits(7, 0), Still(0), Still(0)),
        Row(Store(32, 8), 1, Waits(7, 0), Still(0), Still(0)),
        Row(Store(8, 9), 0, Waits(7, 0), Still(0), Waits(9, 0)),
        Row(Flush(0), 0, Flushed(7, 0), Still(0), Waits(9, 0)),
        Row(Store(1, 5), 0, Flushed(7, 0), Waits(5, 0), Waits(9, 0)),
        Row(Flush(4), 1, Flushed(7, 0), Waits(5, 0), Waits(9, 0)),
        Row(Fence, 0, Still(7), Waits(5, 0), Waits(9, 0)),
        Row(Store(0, 6), 0, Waits(6, 7), Waits(5, 0), Waits(9, 0)),
        Row(Flush(1), 0, Waits(6, 7), Waits(5, 0), Flushed(9, 0)),
        Row(Store(1, 6), 2, Waits(6, 7), Waits(5, 0), Flushed(9, 0)),
        Row(Fence, 5, Waits(6, 7), Waits(5, 0), Flushed(9, 0)),
        Row(Store(32, 6), 5, Waits(6, 7), Waits(5, 0), Flushed(9, 0)),
    ];
    follow(&rt, &mut nvm, &rows);
    Ok(())
}

#[test]
fn a_ninth_line_settles_the_earliest(rt: HostRuntime) -> Result<(), Fail> {
    let mut nvm = EightLineNvm::zeroed(rt.alloc(), 3, 100)?;
    assert_eq!(rt; perform(&mut nvm, Store(8, 1)), 0);
    assert_eq!(rt; perform(&mut nvm, Store(0, 1)), 0);
    for line in 2..8 {
        assert_eq!(rt; perform(&mut nvm, Store(8 * line, 1)), 0);
    }
    let rows = [
        Row(Store(1, 2), 0, Waits(1, 0), Waits(2, 0), Waits(1, 0)),
        Row(Store(64, 3), 0, Waits(1, 0), Waits(2, 0), Still(1)),
        Row(Store(8, 4), 0, Still(1), Still(2), Waits(4, 1)),
        Row(Flush(1), 0, Still(1), Still(2), Flushed(4, 1)),
        Row(Fence, 0, Still(1), Still(2), Still(4)),
    ];
    follow(&rt, &mut nvm, &rows);
    assert_eq!(rt; nvm.lines_by_age(), [2usize, 3, 4, 5, 6, 7, 8].as_slice());
    Ok(())
}

#[test]
fn a_surplus_of_lines_settles_at_once(rt: HostRuntime) -> Result<(), Fail> {
    let heap = rt.alloc();
    let nvm = EightLineNvm::new(
        heap,
        vec![in heap; 3; 96]?,
        vec![in heap; 4; 80]?,
        vec![in heap; Mark::Flushed; 100]?,
        1,
    )?;
    assert_eq!(rt; nvm.units(), 2);
    assert_eq!(rt; nvm.look(63), Flushed(4, 3));
    assert_eq!(rt; nvm.look(64), Beyond);
    let nvm = EightLineNvm::new(
        heap,
        vec![in heap; 3; 96]?,
        vec![in heap; 4; 96]?,
        vec![in heap; Mark::Waiting; 96]?,
        1,
    )?;
    assert_eq!(rt; nvm.look(31), Still(4));
    assert_eq!(rt; nvm.look(32), Waits(4, 3));
    Ok(())
}

#[test]
fn dark_after_every_act_number(rt: HostRuntime) -> Result<(), Fail> {
    let steps = [Store(0, 1), Flush(0), Fence];
    for acts in 0..4 {
        let mut nvm = EightLineNvm::zeroed(rt.alloc(), 1, acts)?;
        for (i, step) in (0..).zip(steps) {
            assert_eq!(rt; perform(&mut nvm, step) == 0, i < acts);
        }
        assert_eq!(rt; nvm.is_dark(), acts < 3);
    }
    Ok(())
}

/// The size of a memory made of lists of these lengths.
fn size_of(heap: Global, settled: usize, present: usize, marks: usize) -> Result<usize, Fail> {
    let nvm = PatientNvm::new(
        heap,
        vec![in heap; 0; settled]?,
        vec![in heap; 0; present]?,
        vec![in heap; Mark::Settled; marks]?,
        0,
    )?;
    Ok(nvm.units())
}

#[test]
fn sizes_come_from_the_shortest_list(rt: HostRuntime) -> Result<(), Fail> {
    let heap = rt.alloc();
    assert_eq!(rt; size_of(heap, 64, 200, 95)?, 2);
    assert_eq!(rt; size_of(heap, 63, 200, 200)?, 1);
    assert_eq!(rt; size_of(heap, 200, 31, 200)?, 0);
    assert_eq!(rt; size_of(heap, 96, 97, 98)?, 3);
    Ok(())
}

/// A patient memory that went dark with word 0 waiting, word 1 flushed and word 8 waiting.
fn cut(rt: &impl Abort, heap: Global) -> Result<PatientNvm, Fail> {
    let mut nvm = PatientNvm::zeroed(heap, 1, 4)?;
    assert_eq!(rt; perform(&mut nvm, Store(1, 7)), 0);
    assert_eq!(rt; perform(&mut nvm, Flush(0)), 0);
    assert_eq!(rt; perform(&mut nvm, Store(0, 6)), 0);
    assert_eq!(rt; perform(&mut nvm, Store(8, 9)), 0);
    assert_eq!(rt; perform(&mut nvm, Fence), 5);
    assert_eq!(rt; nvm.load(0).is_ok(), false);
    Ok(nvm)
}

#[test]
fn words_come_back_old_new_or_mixed(rt: HostRuntime) -> Result<(), Fail> {
    let heap = rt.alloc();
    let mut nvm = cut(&rt, heap)?;
    nvm.restart(&Comeback::Old, 1);
    follow(
        &rt,
        &mut nvm,
        &[Row(Fence, 0, Still(0), Still(0), Still(0))],
    );
    let mut nvm = cut(&rt, heap)?;
    nvm.restart(&Comeback::New, 1);
    follow(
        &rt,
        &mut nvm,
        &[Row(Fence, 0, Still(6), Still(7), Still(9))],
    );
    let mut nvm = cut(&rt, heap)?;
    nvm.restart(&Comeback::Chosen(vec![in heap; false, true]?), 1);
    follow(
        &rt,
        &mut nvm,
        &[
            Row(Fence, 0, Still(0), Still(7), Still(0)),
            Row(Fence, 5, Still(0), Still(7), Still(0)),
        ],
    );
    Ok(())
}

#[test]
fn a_further_memory_keeps_the_interface(rt: HostRuntime) -> Result<(), Fail> {
    let mut nvm = BufferedNvm::new(vec![in rt.alloc(); 0; 32]?);
    assert_eq!(rt; perform(&mut nvm, Store(3, 1)), 0);
    assert_eq!(rt; perform(&mut nvm, Store(3, 2)), 2);
    assert_eq!(rt; perform(&mut nvm, Store(4, 2)), 0);
    assert_eq!(rt; perform(&mut nvm, Store(3, 5)), 0);
    nvm.restart(&Comeback::New, 0);
    assert_eq!(rt; nvm.load(3)?, 1);
    assert_eq!(rt; nvm.load(4)?, 2);
    Ok(())
}
