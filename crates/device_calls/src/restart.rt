//! Restart.
ghost use Rattle.calls.specs.Steps.{MachineRestarted};
ghost use Rattle.engine.specs.Machine.{machine};

use calls::state::State;
use device::disk::Disk;
use device::nvm::Nvm;
use engine::engine::Engine;
use kinds::kind::RecordKind;
use promise::request::Return;

/// Power returns: the store ends, and its two devices, each asked to come back its own way, are a new unmounted one, which takes over
/// its memory.
pub fn restart<N: Nvm, D: Disk, K: RecordKind>(engine: &mut Engine<N, D, K>, back: &Return)
    ensures restarted { MachineRestarted (machine N.Nvm.meaning D.Disk.meaning engine.old) (machine N.Nvm.meaning D.Disk.meaning engine.new) }
    ensures nvm { N.Nvm.comes engine.old.nvm back.now.nvm back.now.nvm_acts engine.new.nvm }
    ensures disk { D.Disk.comes engine.old.disk back.now.disk back.now.disk_acts engine.new.disk }
{
    engine.nvm.restart(&back.nvm, back.nvm_acts);
    engine.disk.restart(&back.disk, back.disk_acts);
    engine.settings.clear();
    engine.state = State::Unmounted;
}
