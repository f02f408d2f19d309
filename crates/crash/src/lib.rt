//! Runs of acts on devices, and what power cuts and restarts leave of them. There is no code here: each function names theorems,
//! so that the check asks for their proofs. docs/DEVICES.md says in plain words what they mean.
#![tactic(auto)]

ghost use Rattle.device.specs.Sectors.{SectorMark, disk_rules};
ghost use Rattle.device.specs.Words.{WordMark, nvm_rules};
ghost use Rattle.std.specs.Prelude.{ℕ, List};
ghost use Rattle.crash.specs.Crash.{RunsHaveBegun, UntouchedOutlasts, MarksFollow, PhaseSettles, OnlyDarknessStops, ContentsFollow, CutPhaseBlends, QuietActsShowNothing, SealingIsAtomic, FlushesSettleAll, SyncSettlesAll};
ghost use Rattle.crash.specs.Keeping.{NvmIsTame, DiskIsTame, nvm_keeps, disk_keeps};
ghost use Rattle.crash.specs.Narrow.{FenceSettles, SyncSettles, StoreShows, WriteShows, SettlingIsDone, NothingElseMoves, RefusalsMoveNothing, SizeStays, DarkStaysDark, UntouchedStays, SizeStaysInRuns, DarkRunsNothing, RestartSettles};
ghost use Rattle.crash.specs.Phases.{RunsPart, CutsPart, OnlyDarknessStopsBoth, UntouchedOutlastsBoth, NvmPhaseSettles, NvmPhaseBlends, DiskPhaseSettles, DiskPhaseBlends, SealingBothIsAtomic, AnyDevicesSettle};
ghost use Rattle.crash.specs.Rows.{StoresAreAPhase, WritesAreAPhase, SealingIsAPhase, UnstoredIsSpared, UnwrittenIsSpared};

/// Both kinds of device keep what every law below rests on.
pub fn devices_are_tame()
    ensures nvm { NvmIsTame }
    ensures disk { DiskIsTame }
{}

/// An act of a memory leaves a device no freedom but to settle at the present value, and to go dark.
pub fn memory_is_narrow()
    ensures fences { FenceSettles }
    ensures stores { StoreShows }
    ensures settles { SettlingIsDone nvm_rules }
    ensures moves { NothingElseMoves nvm_rules nvm_keeps }
    ensures refuses { RefusalsMoveNothing nvm_rules }
    ensures sizes { SizeStays nvm_rules }
    ensures darkness { DarkStaysDark nvm_rules }
    ensures untouched { UntouchedStays nvm_rules }
    ensures runSizes { SizeStaysInRuns nvm_rules }
    ensures darkRuns { DarkRunsNothing nvm_rules }
    ensures restarts { RestartSettles WordMark ℕ }
{}

/// The same of a disk.
pub fn disk_is_narrow()
    ensures syncs { SyncSettles }
    ensures writes { WriteShows }
    ensures settles { SettlingIsDone disk_rules }
    ensures moves { NothingElseMoves disk_rules disk_keeps }
    ensures refuses { RefusalsMoveNothing disk_rules }
    ensures sizes { SizeStays disk_rules }
    ensures darkness { DarkStaysDark disk_rules }
    ensures untouched { UntouchedStays disk_rules }
    ensures runSizes { SizeStaysInRuns disk_rules }
    ensures darkRuns { DarkRunsNothing disk_rules }
    ensures restarts { RestartSettles SectorMark (List ℕ) }
{}

/// What runs, cuts and restarts leave of a memory.
pub fn memory_outlasts_cuts()
    ensures begun { RunsHaveBegun nvm_rules }
    ensures untouched { UntouchedOutlasts nvm_rules }
    ensures contents { ContentsFollow nvm_rules nvm_keeps }
    ensures marks { MarksFollow nvm_rules }
    ensures whole { PhaseSettles nvm_rules }
    ensures cut { CutPhaseBlends nvm_rules nvm_keeps }
    ensures quiet { QuietActsShowNothing nvm_rules nvm_keeps }
    ensures stops { OnlyDarknessStops nvm_rules }
    ensures seals { SealingIsAtomic }
    ensures noisy { FlushesSettleAll }
{}

/// The same of a disk.
pub fn disk_outlasts_cuts()
    ensures begun { RunsHaveBegun disk_rules }
    ensures untouched { UntouchedOutlasts disk_rules }
    ensures contents { ContentsFollow disk_rules disk_keeps }
    ensures marks { MarksFollow disk_rules }
    ensures whole { PhaseSettles disk_rules }
    ensures cut { CutPhaseBlends disk_rules disk_keeps }
    ensures quiet { QuietActsShowNothing disk_rules disk_keeps }
    ensures stops { OnlyDarknessStops disk_rules }
    ensures noisy { SyncSettlesAll }
{}

/// Which lists of acts are phases, and what they spare.
pub fn rows_are_phases()
    ensures stores { StoresAreAPhase }
    ensures writes { WritesAreAPhase }
    ensures seals { SealingIsAPhase }
    ensures unstored { UnstoredIsSpared }
    ensures unwritten { UnwrittenIsSpared }
{}

/// What runs, cuts and restarts leave of both devices.
pub fn pair_outlasts_cuts()
    ensures runs { RunsPart }
    ensures cuts { CutsPart }
    ensures stops { OnlyDarknessStopsBoth }
    ensures untouched { UntouchedOutlastsBoth }
    ensures words { NvmPhaseSettles }
    ensures wordsCut { NvmPhaseBlends }
    ensures sectors { DiskPhaseSettles }
    ensures sectorsCut { DiskPhaseBlends }
    ensures seals { SealingBothIsAtomic }
    ensures noisy { AnyDevicesSettle }
{}
