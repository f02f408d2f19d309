//! Acts on a disk, and what stands after them.
use device::disk::Disk;
use disks::contents::Contents;
use disks::settling::Settling;
use disks::simulation::SimulatedDisk;
use refusal::reason::Refusal;
use std::process::Abort;

/// A write of a block full of one value, or a sync.
#[derive(Clone, Copy)]
pub enum Step {
    Write(usize, u64),
    Sync,
}

/// The first word of a block, present and settled, and whether its first sector waits.
#[derive(Clone, Copy, PartialEq, Eq, Debug)]
pub struct Look(pub Option<u64>, pub Option<u64>, pub Option<bool>);

/// A settled block that begins with a value.
pub fn still(value: u64) -> Look {
    Look(Some(value), Some(value), Some(false))
}

/// A block that waits.
pub fn waits(present: u64, settled: u64) -> Look {
    Look(Some(present), Some(settled), Some(true))
}

/// A step, its answer, and what stands then: the acts left and the first two blocks.
#[derive(Clone, Copy)]
pub struct Row(
    pub Step,
    pub Result<(), Refusal>,
    pub u64,
    pub Look,
    pub Look,
);

/// What stands at the start of a block.
pub fn seen(contents: &Contents, block: u8) -> Look {
    let block = usize::from(block);
    Look(
        contents.present(512 * block),
        contents.settled(512 * block),
        contents.waits(8 * block),
    )
}

/// The answer to a step.
pub fn perform<D: Disk>(disk: &mut D, step: Step) -> Result<(), Refusal> {
    match step {
        Step::Write(block, value) => disk.write(block, &[value; 512]),
        Step::Sync => disk.sync(),
    }
}

/// Performs the steps of a table and compares what stands after each.
pub fn follow<S: Settling>(rt: &impl Abort, disk: &mut SimulatedDisk<S>, rows: &[Row]) {
    for row in rows {
        assert_eq!(rt; perform(disk, row.0), row.1);
        assert_eq!(rt; disk.contents().acts_left(), row.2);
        assert_eq!(rt; seen(disk.contents(), 0), row.3);
        assert_eq!(rt; seen(disk.contents(), 1), row.4);
    }
}
