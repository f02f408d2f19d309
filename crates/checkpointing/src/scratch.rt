//! The memory that a checkpoint works with.
ghost use Rattle.std.specs.Prelude.{◌≡◌, [], replicate};

pub use crate::rows::Rows;

/// Memory for the rows of any ring and for one block, taken once. What it holds between two calls matters to none.
#[derive(Drop)]
pub struct Scratch {
    pub rows: Rows,
    pub block: [u64; 512],
}

impl Scratch {
    /// Room for the rows of any ring, and a block of zero words.
    pub fn new() -> Scratch
        ensures { (result.rows ≡ []) × (result.block ≡ replicate 512 0) }
    {
        Scratch {
            rows: Rows::new(),
            block: [0; 512],
        }
    }
}
