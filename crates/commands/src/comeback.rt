//! What a restart tells the simulated devices.
ghost use Rattle.std.specs.Prelude.{◌≡◌};
ghost use Rattle.commands.specs.Comebacks.{comeback_of};

use crate::command::Contents;
use device::comeback::Comeback;

impl From<Contents> for Comeback {
    ghost from_gives = { λ contents comeback. comeback ≡ comeback_of contents };

    fn from(contents: Contents) -> Comeback {
        match contents {
            Contents::Old => Comeback::Old,
            Contents::New => Comeback::New,
        }
    }
}

impl Contents {
    /// How a simulated device comes back with these contents.
    pub fn comeback(self) -> Comeback
        ensures { result ≡ comeback_of self }
    {
        self.into()
    }
}
