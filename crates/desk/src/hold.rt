//! Records that wait for the next transaction.
ghost use Rattle.std.specs.Prelude.{◌≡◌};
ghost use Rattle.desk.specs.Desks.{image_of};

use crate::ring_desk::RingDesk;
use crate::rings::BLOCKS;
use refusal::reason::Refusal;
use ringlaws::setting::Setting;
use ringunits::info::COUNT_LIMIT;

impl RingDesk {
    /// Has a record wait for the next commit. A record that waits already takes the new unit in its place.
    pub fn hold(&mut self, number: u64, unit: [u64; 32]) -> Result<(), Refusal>
        ensures { image_of self.new ≡ image_of self.old }
    {
        if number / 16 >= BLOCKS as u64 {
            return Err(Refusal::NoSuchRecord);
        }
        let place = self
            .waiting
            .iter()
            .position(|setting| setting.number == number);
        if let Some(i) = place {
            self.waiting[i] = Setting { number, unit };
            return Ok(());
        }
        if self.waiting.len() >= COUNT_LIMIT {
            return Err(Refusal::TooManyRecords);
        }
        self.waiting.push_reserved(Setting { number, unit });
        Ok(())
    }
}
