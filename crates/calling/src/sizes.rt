//! The sizes that a store may have.
ghost use Rattle.std.specs.Prelude.{◌≡◌};
ghost use Rattle.calls.specs.Plans.{fit_sizes};

use ringunits::header::MOST_BLOCKS;

/// The fewest units of a memory: unit 0 and a ring of 32 places.
const LEAST_UNITS: usize = 33;
/// The most units of a memory.
const MOST_UNITS: usize = 256;

/// Whether a memory of so many units and a disk of so many blocks are within the limits.
pub fn fit_sizes(units: usize, blocks: usize) -> bool
    ensures { result ≡ fit_sizes units blocks }
{
    (LEAST_UNITS <= units && units <= MOST_UNITS) && (1 <= blocks && blocks <= MOST_BLOCKS)
}
