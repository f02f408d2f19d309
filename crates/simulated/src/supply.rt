//! The power of a simulated device.
ghost use Rattle.std.specs.Prelude.{◌≡◌};
ghost use Rattle.std.proofs.Common.{ap};
ghost use Rattle.simulated.specs.Power.{Power, power_of, acts_of, acts_back, charged, spend_answer, spent};

use refusal::reason::Refusal;
use std::marker::Model;

/// How many more acts are performed, or none when power is gone. It goes at the first act after that many performed ones.
#[derive(Clone, Copy)]
pub struct Supply {
    acts: Option<u64>,
}

impl Model for Supply {
    ghost Value = { Power };

    ghost view = { λ s. power_of s.acts };

    ghost inverse = { λ p. record { acts = acts_of p } };

    ghost inverse_ok = { λ s _. ap (λ acts. record { acts = acts }) (acts_back s.acts) };
}

impl Supply {
    /// Power for a number of acts.
    pub fn new(acts: u64) -> Supply
        ensures { result ≡ charged acts }
    {
        Supply { acts: Some(acts) }
    }

    /// Whether power is gone.
    pub fn is_dark(&self) -> bool
        ensures { result ≡ self.now.dark }
    {
        self.acts.is_none()
    }

    /// How many more acts are performed.
    pub fn acts_left(&self) -> u64
        ensures { result ≡ self.now.left }
    {
        self.acts.unwrap_or(0)
    }

    /// Spends one act, or turns dark if none is left.
    pub fn spend(&mut self) -> Result<(), Refusal>
        ensures answer { result ≡ spend_answer self.old }
        ensures after { self.new ≡ spent self.old }
    {
        match self.acts {
            None | Some(0) => {
                self.acts = None;
                Err(Refusal::Dark)
            }
            Some(left) => {
                self.acts = Some(left - 1);
                Ok(())
            }
        }
    }

    /// Power returns, for a new number of acts.
    pub fn restore(&mut self, acts: u64)
        ensures { self.new ≡ charged acts }
    {
        self.acts = Some(acts);
    }
}
