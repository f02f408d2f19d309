//! What both simulated disks do.
ghost use Rattle.std.specs.Prelude.{◌≡◌, ℕ, ◌+◌, ◌*◌, ◌<◌, false, slice_index_or};
ghost use Rattle.device.specs.Sectors.{Write, Sync, any_below, disk_makes, Reads};
ghost use Rattle.simulated.specs.Natures.{returned};
ghost use Rattle.disks.specs.State.{disk_state, ActsBy, patient, all_settled};

use crate::contents::Contents;
use crate::sectors::{any_waits, clear_marks, copy_out, renew, revert};
use device::comeback::Comeback;
use refusal::reason::Refusal;
use simulated::rows::set_marks;

impl Contents {
    /// Copies a block's present words into a buffer.
    pub(crate) fn read(&self, block: usize, buf: &mut [u64; 512]) -> Result<(), Refusal>
        ensures { Reads (disk_state self.now).meaning block buf.old result buf.new }
    {
        if self.supply.is_dark() {
            return Err(Refusal::Dark);
        }
        if block >= self.blocks {
            return Err(Refusal::Beyond);
        }
        copy_out(self.present.as_slice(), block, buf);
        Ok(())
    }

    /// Gives the sectors of a block, of which none waits, new present words, and makes them wait.
    fn put(&mut self, block: usize, buf: &[u64; 512])
        requires { (block < self.old.blocks) × (any_below (λ k. slice_index_or self.old.waiting.items (8 * block + k) false) 8 ≡ false) }
        ensures size { self.new.blocks ≡ self.old.blocks }
        ensures supply { self.new.supply ≡ self.old.supply }
        ensures sectors { (s : ℕ) → (disk_state self.new).meaning.piece s ≡ disk_makes (Write block buf.now) s ((disk_state self.old).meaning.piece s) }
    {
        self.pending.add(block);
        renew(
            self.settled.as_mut_slice(),
            self.present.as_mut_slice(),
            block,
            buf,
        );
        set_marks(self.waiting.as_mut_slice(), 8 * block, 8 * block + 8, true);
    }

    /// Settles all sectors. It is no act.
    pub(crate) fn settle(&mut self)
        ensures { disk_state self.new ≡ all_settled (disk_state self.old) }
    {
        clear_marks(self.waiting.as_mut_slice(), self.pending.as_slice());
        self.pending.clear();
    }

    /// Writes a block, as the patient disk does.
    pub(crate) fn write(&mut self, block: usize, buf: &[u64; 512]) -> Result<(), Refusal>
        ensures { ActsBy (patient (Write block buf.now)) (disk_state self.old) (Write block buf.now) result (disk_state self.new) }
    {
        if self.supply.is_dark() {
            return Err(Refusal::Dark);
        }
        if block >= self.blocks {
            return Err(Refusal::Beyond);
        }
        if any_waits(self.waiting.as_slice(), block) {
            return Err(Refusal::Unsettled);
        }
        self.supply.spend()?;
        self.put(block, buf);
        Ok(())
    }

    /// Settles all sectors, as an act.
    pub(crate) fn sync(&mut self) -> Result<(), Refusal>
        ensures { ActsBy (patient Sync) (disk_state self.old) Sync result (disk_state self.new) }
    {
        self.supply.spend()?;
        self.settle();
        Ok(())
    }

    /// Power returns, for a number of acts, and each sector that waits comes back as `how` says.
    pub(crate) fn restart(&mut self, how: &Comeback, acts: u64)
        ensures { disk_state self.new ≡ returned how.now acts (disk_state self.old) }
    {
        revert(
            self.settled.as_slice(),
            self.present.as_mut_slice(),
            self.waiting.as_slice(),
            how,
            self.pending.as_slice(),
        );
        self.settle();
        self.supply.restore(acts);
    }
}
