//! Both devices settled.
ghost use Rattle.std.specs.Prelude.{◌≡◌, ◌*◌, ◌^◌, ◌<◌, true, false, MatchResult};
ghost use Rattle.refusal.specs.declared.reason.Refusal.TheVariants.{Dark};
ghost use Rattle.crash.specs.Pair.{both, is_dark, RanPair, settling_both};

use crate::memory::settle_units;
use device::disk::Disk;
use device::nvm::Nvm;
use refusal::reason::Refusal;

/// Refuses devices of which one has no power.
pub fn check_power<N: Nvm, D: Disk>(nvm: &N, disk: &D) -> Result<(), Refusal>
    ensures { MatchResult result (λ _. ((N.Nvm.meaning nvm.now).dark ≡ false) × ((D.Disk.meaning disk.now).dark ≡ false)) (λ e. (is_dark (both (N.Nvm.meaning nvm.now) (D.Disk.meaning disk.now)) ≡ true) × (e ≡ Dark)) }
{
    if nvm.is_dark() || disk.is_dark() {
        return Err(Refusal::Dark);
    }
    Ok(())
}

/// Settles `units` units of the memory, and the disk.
pub(crate) fn settle_with<N: Nvm, D: Disk>(
    nvm: &mut N,
    disk: &mut D,
    units: usize,
) -> Result<(), Refusal>
    requires { 4 * units < 2 ^ 64 }
    ensures { RanPair (both (N.Nvm.meaning nvm.old) (D.Disk.meaning disk.old)) (settling_both units) result (both (N.Nvm.meaning nvm.new) (D.Disk.meaning disk.new)) }
{
    settle_units(nvm, units)?;
    disk.sync()
}

/// Settles everything on both devices.
pub fn settle_both<N: Nvm, D: Disk>(nvm: &mut N, disk: &mut D) -> Result<(), Refusal>
    ensures { RanPair (both (N.Nvm.meaning nvm.old) (D.Disk.meaning disk.old)) (settling_both (N.Nvm.meaning nvm.old).size) result (both (N.Nvm.meaning nvm.new) (D.Disk.meaning disk.new)) }
{
    let units = nvm.units();
    settle_with(nvm, disk, units)
}
