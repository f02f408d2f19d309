//! Unit 0 of a memory: its words, and the limits of a store. All code that knows unit 0 takes them from here.

/// The word of the ground mark.
pub const GROUND_WORD: usize = 0;

/// The ground mark, which only a finished format leaves.
pub const GROUND_MARK: u64 = 0x3C91_E07D_58A2_B46F;

/// The word of the number of places.
pub const PLACES_WORD: usize = 1;

/// The word of the number of blocks.
pub const BLOCKS_WORD: usize = 2;

/// The word of the head.
pub const HEAD_WORD: usize = 8;

/// The word of the tail.
pub const TAIL_WORD: usize = 16;

/// The most blocks of a disk.
pub const MOST_BLOCKS: usize = 4096;
