//! A simulated disk, whichever way it settles sectors.
ghost use Rattle.std.specs.Prelude.{◌≡◌, false, MatchResult};
ghost use Rattle.std.proofs.Common.{◌∙◌, arith, rules};
ghost use Rattle.refusal.specs.declared.reason.Refusal.TheVariants.{NoMemory};
ghost use Rattle.device.specs.Devices.{Acted, Restarted};
ghost use Rattle.device.specs.Sectors.{Write, Sync, disk_rules};
ghost use Rattle.simulated.specs.Natures.{returned};
ghost use Rattle.disks.specs.State.{disk_state, made_of, blank, ActsBy};
ghost use Rattle.std.proofs.lemmas.List.{get_or_past};
ghost use Rattle.disks.specs.Parts.{waits_of};

use crate::contents::Contents;
use crate::settling::Settling;
use device::comeback::Comeback;
use device::disk::Disk;
use refusal::reason::Refusal;
use std::alloc::Global;
use std::marker::PhantomData;

/// A simulated disk that settles sectors as `S` says.
#[derive(Drop)]
pub struct SimulatedDisk<S> {
    contents: Contents,
    settling: PhantomData<S>,
}

impl<S: Settling> SimulatedDisk<S> {
    /// A disk of the whole blocks in the shortest of the lists, which goes dark at the first act after `acts` performed ones. A
    /// sector that is not marked as waiting is settled at its present words.
    pub fn new(
        heap: Global,
        settled: Vec<u64>,
        present: Vec<u64>,
        waiting: Vec<bool>,
        acts: u64,
    ) -> Result<SimulatedDisk<S>, Refusal>
        ensures { MatchResult result (λ d. disk_state d.contents ≡ made_of settled.items present.items waiting.items acts) (λ e. e ≡ NoMemory) }
    {
        let contents = Contents::new(heap, settled, present, waiting, acts)?;
        Ok(SimulatedDisk {
            contents,
            settling: PhantomData,
        })
    }

    /// A disk of zeros, all settled.
    pub fn zeroed(heap: Global, blocks: usize, acts: u64) -> Result<SimulatedDisk<S>, Refusal>
        ensures { MatchResult result (λ d. disk_state d.contents ≡ blank blocks acts) (λ e. e ≡ NoMemory) }
    {
        let contents = Contents::zeroed(heap, blocks, acts)?;
        Ok(SimulatedDisk {
            contents,
            settling: PhantomData,
        })
    }

    /// What it holds, for tests and tools to look into.
    pub fn contents(&self) -> &Contents
        ensures { result.now ≡ self.now.contents }
    {
        &self.contents
    }
}

impl<S: Settling> Disk for SimulatedDisk<S> {
    ghost meaning = { λ d. (disk_state d.contents).meaning };

    ghost comes = { λ s how acts t. disk_state t.contents ≡ returned how acts (disk_state s.contents) };

    ghost fits = { Prim.search rules };

    ghost ends = { λ d i far. waits_of _ _ _ ∙ get_or_past d.contents.waiting.items i false (omega (arith, d.contents.waiting.ok.0, d.contents.eights)) };

    fn blocks(&self) -> usize {
        self.contents.blocks
    }

    fn is_dark(&self) -> bool {
        self.contents.supply.is_dark()
    }

    fn read(&self, block: usize, buf: &mut [u64; 512]) -> Result<(), Refusal> {
        self.contents.read(block, buf)
    }

    fn write(&mut self, block: usize, buf: &[u64; 512]) -> Result<(), Refusal>
        ensures acted { Acted disk_rules (disk_state self.old.contents).meaning (Write block buf.now) result (disk_state self.new.contents).meaning }
        ensures nature { ActsBy (S.makes (Write block buf.now)) (disk_state self.old.contents) (Write block buf.now) result (disk_state self.new.contents) }
    {
        S::write(&mut self.contents, block, buf)
    }

    fn sync(&mut self) -> Result<(), Refusal>
        ensures acted { Acted disk_rules (disk_state self.old.contents).meaning Sync result (disk_state self.new.contents).meaning }
        ensures nature { ActsBy (S.makes Sync) (disk_state self.old.contents) Sync result (disk_state self.new.contents) }
    {
        self.contents.sync()
    }

    fn restart(&mut self, how: &Comeback, acts: u64)
        ensures restarted { Restarted (disk_state self.old.contents).meaning (disk_state self.new.contents).meaning }
        ensures asked { disk_state self.new.contents ≡ returned how.now acts (disk_state self.old.contents) }
        ensures comeback { disk_state self.new.contents ≡ returned how.now acts (disk_state self.old.contents) }
    {
        self.contents.restart(how, acts);
    }
}
