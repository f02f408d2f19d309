//! Two pairs of devices, some thousands of requests each.
use crate::lists::list;
use asked::asks::*;
use device::disk::Disk;
use device::nvm::Nvm;
use disks::patient::PatientDisk;
use disks::prompt::PromptDisk;
use joined::kind::JoinedKind;
use model::model::*;
use nvms::devices::{EightLineNvm, PatientNvm};
use std::alloc::Global;
use std::process::Abort;
use std::test::Fail;
use store::store::Store;

/// Runs a list, and the model hears every answer.
fn one_list<N: Nvm, D: Disk>(
    rt: &impl Abort,
    heap: Global,
    store: &mut Store<N, D, JoinedKind>,
    model: &mut Model,
    asks: &[Ask],
) -> Result<(), Fail> {
    let seen = replies(heap, store, asks)?;
    assert_eq!(rt; seen.len(), asks.len());
    for (ask, reply) in asks.iter().zip(seen.iter()) {
        heard(heap, model, *ask, *reply)?;
    }
    assert_eq!(rt; store.is_dark(), model.dark);
    assert_eq!(rt; store.state(), model.state);
    Ok(())
}

/// Runs many lists, the first of which is a format.
fn many_lists<N: Nvm + Drop, D: Disk + Drop>(
    rt: &impl Abort,
    heap: Global,
    nvm: N,
    disk: D,
    seed: u64,
) -> Result<(), Fail> {
    let mut store = store_of(heap, nvm, disk)?;
    let mut known = untouched(heap)?;
    one_list(rt, heap, &mut store, &mut known, &[Ask::Format])?;
    let mut x = seed;
    for _ in 0..600u32 {
        let asks = list(heap, &mut x)?;
        one_list(rt, heap, &mut store, &mut known, asks.as_slice())?;
    }
    assert!(rt; known.doubts > 10);
    Ok(())
}

#[test]
fn random_lists(rt: HostRuntime) -> Result<(), Fail> {
    let heap = rt.alloc();
    for seed in [1, 20, 300] {
        many_lists(
            &rt,
            heap,
            PatientNvm::zeroed(heap, 33, PLENTY)?,
            PatientDisk::zeroed(heap, 2, PLENTY)?,
            seed,
        )?;
        many_lists(
            &rt,
            heap,
            EightLineNvm::zeroed(heap, 33, PLENTY)?,
            PromptDisk::zeroed(heap, 2, PLENTY)?,
            seed,
        )?;
    }
    Ok(())
}
