//! How a simulated disk settles sectors.
ghost use Rattle.std.specs.Prelude.{◌≡◌, ℕ};
ghost use Rattle.device.specs.Pieces.{MaySettle};
ghost use Rattle.device.specs.Sectors.{Sector, DiskAct, Write, Sync, disk_makes};
ghost use Rattle.disks.specs.State.{disk_state, ActsBy};

use crate::contents::Contents;
use refusal::reason::Refusal;

/// A way to settle: every disk settles all sectors at a sync, and some settle more at a write.
pub trait Settling {
    // What a disk that settles in this way makes of each sector when it performs an act.
    ghost makes: { DiskAct → ℕ → Sector → Sector };

    /// Writes a block, and settles what is settled at a write.
    fn write(contents: &mut Contents, block: usize, buf: &[u64; 512]) -> Result<(), Refusal>
        ensures { ActsBy (makes (Write block buf.now)) (disk_state contents.old) (Write block buf.now) result (disk_state contents.new) };

    // It makes of a sector what the act makes of it, or settles it besides.
    ghost settles: { (a : DiskAct) (s : ℕ) (c : Sector) → MaySettle (disk_makes a s c) (makes a s c) };

    // A sync settles all sectors, and does nothing else.
    ghost syncs: { makes Sync ≡ disk_makes Sync };
}
