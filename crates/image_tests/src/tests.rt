//! Each word of an image is turned, and the image mounted.
use crate::fate::*;
use crate::image::*;
use asked::asks::Ask::*;
use asked::asks::Reply::*;
use asked::asks::*;
use device::disk::Disk;
use device::nvm::Nvm;
use disks::patient::PatientDisk;
use disks::prompt::PromptDisk;
use joined::kind::JoinedKind;
use nvm_words::mark::Mark;
use nvms::devices::{EightLineNvm, PatientNvm};
use std::alloc::Global;
use std::test::Fail;

const FOREIGN: [Row; 16] = [
    Row(Read(7), No(21)),
    Row(Mount, Blocks(2)),
    Row(Read(7), No(34)),
    Row(Read(21), No(34)),
    Row(Read(5), Found(21)),
    Row(Read(3), Absent),
    Row(Read(32), No(31)),
    Row(Begin, Done),
    Row(Read(7), No(34)),
    Row(Set(7, 5), Done),
    Row(Read(7), Found(5)),
    Row(Clear(7), Done),
    Row(Read(7), Absent),
    Row(Read(21), No(34)),
    Row(Abandon, Done),
    Row(Read(7), No(34)),
];

/// Mounts a store of two devices. If it is accepted, everything reads as it must, now and after another mount. If it is refused, it is
/// refused again, and a format makes a new store.
fn mounts<N: Nvm + Drop, D: Disk + Drop>(
    heap: Global,
    nvm: N,
    disk: D,
    expected: Reply,
    table: &Vec<u64>,
) -> Result<(), Fail> {
    let mut rows = vec![in heap; Row(Mount, expected)]?;
    if let Blocks(_) = expected {
        for round in 0..2u8 {
            for number in 0..32u8 {
                rows.push(Row(Read(u64::from(number)), reading(table, number)))?;
            }
            if round == 0 {
                rows.push(Row(Restart(Back::Old(PLENTY, PLENTY)), Done))?;
                rows.push(Row(Mount, Blocks(0)))?;
            }
        }
    } else {
        rows.push(Row(Begin, No(21)))?;
        rows.push(Row(Mount, expected))?;
        rows.push(Row(Format, Done))?;
        rows.push(Row(Mount, Blocks(0)))?;
        rows.push(Row(Read(5), Absent))?;
        rows.push(Row(Read(8), Absent))?;
    }
    let mut store = store_of::<_, _>(heap, nvm, disk)?;
    follow(heap, &mut store, rows.as_slice())
}

/// The patient devices with an image of which all is settled.
fn settled(heap: Global, image: &Image) -> Result<(PatientNvm, PatientDisk), Fail> {
    let nvm = PatientNvm::new(
        heap,
        image.nvm.clone()?,
        image.nvm.clone()?,
        vec![in heap; Mark::Settled; 1056]?,
        PLENTY,
    )?;
    let disk = PatientDisk::new(
        heap,
        image.disk.clone()?,
        image.disk.clone()?,
        vec![in heap; false; 16]?,
        PLENTY,
    )?;
    Ok((nvm, disk))
}

/// Mounts an image of which all is settled, on the patient devices, and one of which nothing is, on the others.
fn agree(heap: Global, image: &Image) -> Result<(), Fail> {
    let mut after = Image {
        nvm: image.nvm.clone()?,
        disk: image.disk.clone()?,
    };
    let expected = mounted(&mut after);
    let (nvm, disk) = settled(heap, image)?;
    mounts(heap, nvm, disk, expected, &after.disk)?;
    mounts(
        heap,
        EightLineNvm::new(
            heap,
            vec![in heap; 1; 1056]?,
            image.nvm.clone()?,
            vec![in heap; Mark::Waiting; 1056]?,
            PLENTY,
        )?,
        PromptDisk::new(
            heap,
            vec![in heap; 1; 1024]?,
            image.disk.clone()?,
            vec![in heap; true; 16]?,
            PLENTY,
        )?,
        expected,
        &after.disk,
    )
}

/// The image with one word of the memory turned by a mask.
fn turned(heap: Global, image: &mut Image, number: usize, mask: u64) -> Result<(), Fail> {
    let before = word(&image.nvm, number);
    put(&mut image.nvm, number, before ^ mask);
    agree(heap, image)?;
    put(&mut image.nvm, number, before);
    Ok(())
}

/// Unit 0 and the used places, some of them TxnInfos and some records; word by word.
#[test]
fn every_word_turned(rt: HostRuntime) -> Result<(), Fail> {
    let heap = rt.alloc();
    let mut image = sound_image(heap)?;
    agree(heap, &image)?;
    for mask in [1, 2, 7, 31, 32, 0x8000_0000_0000_0000] {
        for number in 0..256usize {
            turned(heap, &mut image, number, mask)?;
        }
        for number in 992..1056usize {
            turned(heap, &mut image, number, mask)?;
        }
    }
    Ok(())
}

/// Some answers spelled out, so that the rules above are not trusted alone.
#[test]
fn some_answers(rt: HostRuntime) -> Result<(), Fail> {
    let heap = rt.alloc();
    let rows: [(usize, u64, Reply); 17] = [
        (3, 5, Blocks(2)),
        (0, 0, No(11)),
        (1, 33, No(12)),
        (2, 1, No(12)),
        (8, 32, No(12)),
        (16, 32, No(12)),
        (8, 7, Blocks(0)),
        (8, 1, Blocks(2)),
        (8, 3, Blocks(2)),
        (8, 2, Unsound(2)),
        (16, 8, Unsound(7)),
        (16, 6, Unsound(5)),
        (255, 0, Unsound(6)),
        (254, 2, Unsound(6)),
        (95, 0, Blocks(2)),
        (127, 0, Unsound(2)),
        (32, 3, Unsound(0)),
    ];
    for (number, value, reply) in rows {
        let mut image = sound_image(heap)?;
        put(&mut image.nvm, number, value);
        agree(heap, &image)?;
        assert_eq!(rt; mounted(&mut image), reply);
    }
    Ok(())
}

/// Head and tail anywhere, and some words turned.
#[test]
fn noise(rt: HostRuntime) -> Result<(), Fail> {
    let heap = rt.alloc();
    let mut x = 2026;
    for round in 0..600u64 {
        let mut image = sound_image(heap)?;
        x = mixed(x);
        if round % 2 == 0 {
            put(&mut image.nvm, 8, x % 34);
            put(&mut image.nvm, 16, (x >> 32) % 34);
        }
        for _ in 0..round % 3 {
            x = mixed(x);
            let number = (x % 1056) as usize;
            let before = word(&image.nvm, number);
            put(&mut image.nvm, number, before ^ (x >> 32) % 64);
        }
        agree(heap, &image)?;
    }
    Ok(())
}

/// A unit that is no record is refused, at home and from the ring, unless the open transaction sets it.
#[test]
fn foreign_units(rt: HostRuntime) -> Result<(), Fail> {
    let heap = rt.alloc();
    let (nvm, disk) = settled(heap, &sound_image(heap)?)?;
    let mut store = store_of(heap, nvm, disk)?;
    follow(heap, &mut store, &FOREIGN)
}
