//! What the acts of each call make of both devices, performed whole or cut by power. Each function names a law, so that the
//! check asks for its proof.
#![tactic(auto)]

ghost use Rattle.calllaws.specs.CheckpointLaw.{CheckpointsKeepTheTable, MountsKeepTheTable};
ghost use Rattle.calllaws.specs.FormatLaw.{SettlingSettlesBoth, FormatsMakeAnEmptyStore};
ghost use Rattle.calllaws.specs.CommitLaw.{CommitsAreAtomic};

/// A commit that is performed whole adds its transaction; cut anywhere, power brings back the old table or the new one.
pub fn commits_are_atomic()
    ensures { CommitsAreAtomic }
{}

/// A checkpoint leaves the ring empty and the table as it was; cut anywhere, it leaves the same table.
pub fn checkpoints_keep_the_table()
    ensures { CheckpointsKeepTheTable }
{}

/// So does a mount, which settles everything first.
pub fn mounts_keep_the_table()
    ensures { MountsKeepTheTable }
{}

/// Flushes of all lines, a fence and a sync settle devices with any contents.
pub fn settling_settles_both()
    ensures { SettlingSettlesBoth }
{}

/// A format makes an empty store of devices with any contents.
pub fn formats_make_an_empty_store()
    ensures { FormatsMakeAnEmptyStore }
{}
