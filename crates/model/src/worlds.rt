//! What the devices of a store may hold. After a power cut there may be several possibilities, of which answers leave the true one.
use asked::asks::{Reply, Table};
use std::alloc::{AllocError, AllocFailed};

/// One possibility.
#[derive(Clone, Copy, PartialEq, Eq)]
pub enum World {
    /// There is no ground mark: of an unfinished format nothing can be told.
    Unmarked,
    /// The values of the records, and which of the two blocks are home to a record in the ring.
    Marked { values: Table, homes: [bool; 2] },
}

/// After a format every record is absent.
pub const BLANK: World = World::Marked {
    values: [0; 32],
    homes: [false; 2],
};

impl World {
    /// How many blocks a checkpoint writes.
    pub fn blocks(&self) -> u8 {
        match self {
            World::Unmarked => 0,
            World::Marked { homes, .. } => u8::from(homes[0]) + u8::from(homes[1]),
        }
    }

    /// The same with an empty ring.
    pub fn emptied(&self) -> World {
        match self {
            World::Unmarked => World::Unmarked,
            World::Marked { values, .. } => World::Marked {
                values: *values,
                homes: [false; 2],
            },
        }
    }

    /// The same with settings laid over.
    pub fn laid(&self, settings: &[(u64, u64)]) -> World {
        match self {
            World::Unmarked => World::Unmarked,
            World::Marked { values, homes } => {
                let mut values = *values;
                let mut homes = *homes;
                for (number, value) in settings {
                    values[(*number % 32) as usize] = *value;
                    homes[(*number / 16 % 2) as usize] = true;
                }
                World::Marked { values, homes }
            }
        }
    }

    /// What a read answers.
    pub fn reading(&self, number: u64) -> Reply {
        match self {
            World::Unmarked => Reply::Absent,
            World::Marked { values, .. } => shown(values[(number % 32) as usize]),
        }
    }
}

/// The answer of a read that finds this value.
pub fn shown(value: u64) -> Reply {
    if value == 0 {
        Reply::Absent
    } else {
        Reply::Found(value)
    }
}

/// Adds a possibility, if it is not there yet.
pub fn add(worlds: &mut Vec<World>, world: World) -> Result<(), AllocFailed<World>> {
    if worlds.contains(&world) {
        return Ok(());
    }
    worlds.push(world)
}
