//! The tests.
use crate::refusals::*;
use asked::asks::*;
use device::disk::Disk;
use device::nvm::Nvm;
use disks::patient::PatientDisk;
use disks::prompt::PromptDisk;
use nvms::devices::{EightLineNvm, PatientNvm};
use std::alloc::Global;
use std::test::Fail;

#[test]
fn refusals_by_state(rt: HostRuntime) -> Result<(), Fail> {
    let heap = rt.alloc();
    by_state(
        &rt,
        heap,
        PatientNvm::zeroed(heap, 33, PLENTY)?,
        PatientDisk::zeroed(heap, 2, PLENTY)?,
    )?;
    by_state(
        &rt,
        heap,
        EightLineNvm::zeroed(heap, 33, PLENTY)?,
        PromptDisk::zeroed(heap, 2, PLENTY)?,
    )?;
    one_block(
        heap,
        PatientNvm::zeroed(heap, 33, PLENTY)?,
        PatientDisk::zeroed(heap, 1, PLENTY)?,
    )
}

/// A memory and a disk of these sizes are refused with this number.
fn refuse(heap: Global, units: usize, blocks: usize) -> Result<(), Fail> {
    let nvm = PatientNvm::zeroed(heap, units, PLENTY)?;
    bad_size(heap, nvm, PatientDisk::zeroed(heap, blocks, PLENTY)?, 10)
}

/// A memory and a disk of these sizes are taken.
fn take(heap: Global, units: usize, blocks: usize, last: u64) -> Result<(), Fail> {
    let nvm = PatientNvm::zeroed(heap, units, PLENTY)?;
    good_size(heap, nvm, PatientDisk::zeroed(heap, blocks, PLENTY)?, last)
}

#[test]
fn sizes(rt: HostRuntime) -> Result<(), Fail> {
    let heap = rt.alloc();
    for (units, blocks) in [(32, 2), (257, 2), (0, 2), (33, 0), (33, 4097), (32, 0)] {
        refuse(heap, units, blocks)?;
    }
    take(heap, 33, 1, 15)?;
    take(heap, 256, 2, 31)?;
    take(heap, 33, 4096, 65535)?;
    let mut nvm = PatientNvm::zeroed(heap, 32, 0)?;
    let _ = nvm.fence();
    bad_size(heap, nvm, PatientDisk::zeroed(heap, 2, PLENTY)?, 5)?;
    let mut disk = PromptDisk::zeroed(heap, 0, 0)?;
    let _ = disk.sync();
    bad_size(heap, PatientNvm::zeroed(heap, 33, PLENTY)?, disk, 5)
}
