//! The tickets on the patient devices.
use crate::tickets::tickets;
use asked::asks::PLENTY;
use disks::patient::PatientDisk;
use nvms::devices::PatientNvm;
use std::alloc::Global;
use std::test::Fail;

/// Zeroed devices.
fn devices(heap: Global) -> Result<(PatientNvm, PatientDisk), Fail> {
    let nvm = PatientNvm::zeroed(heap, 33, PLENTY)?;
    Ok((nvm, PatientDisk::zeroed(heap, 2, PLENTY)?))
}

#[test]
fn tickets_go_back(rt: HostRuntime) -> Result<(), Fail> {
    let heap = rt.alloc();
    tickets(&rt, heap, devices(heap)?, devices(heap)?)
}
