//! The cuts on four pairs of devices.
use crate::cuts::all_cuts;
use asked::asks::PLENTY;
use disks::patient::PatientDisk;
use disks::prompt::PromptDisk;
use nvms::devices::{EightLineNvm, PatientNvm};
use std::test::Fail;

#[test]
fn power_is_cut_at_every_act(rt: HostRuntime) -> Result<(), Fail> {
    let heap = rt.alloc();
    all_cuts(
        &rt,
        heap,
        PatientNvm::zeroed(heap, 33, PLENTY)?,
        PatientDisk::zeroed(heap, 2, PLENTY)?,
    )?;
    all_cuts(
        &rt,
        heap,
        PatientNvm::zeroed(heap, 33, PLENTY)?,
        PromptDisk::zeroed(heap, 2, PLENTY)?,
    )?;
    all_cuts(
        &rt,
        heap,
        EightLineNvm::zeroed(heap, 33, PLENTY)?,
        PatientDisk::zeroed(heap, 2, PLENTY)?,
    )?;
    all_cuts(
        &rt,
        heap,
        EightLineNvm::zeroed(heap, 33, PLENTY)?,
        PromptDisk::zeroed(heap, 2, PLENTY)?,
    )
}
