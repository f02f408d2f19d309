//! What is done with the settings.
ghost use Rattle.std.specs.Prelude.{◌≡◌, ◌==◌, [], length, MatchResult};
ghost use Rattle.std.specs.List.{position_from};
ghost use Rattle.refusal.specs.declared.reason.Refusal.TheVariants.{NoMemory};
ghost use Rattle.ringlaws.specs.Newest.{setting_of};
ghost use Rattle.settings.specs.Puts.{list_of, Puts};

use crate::kept::Settings;
use refusal::reason::Refusal;
use ringlaws::setting::Setting;
use std::alloc::Global;

/// Where the setting of a record stands.
fn position(settings: &[Setting], number: u64) -> Option<usize>
    ensures { result ≡ position_from (λ setting. setting.number == number) 0 settings.now }
{
    settings.iter().position(|setting| setting.number == number)
}

impl Settings {
    /// The most records that a transaction sets.
    pub const MOST: usize = 30;

    /// No settings, with memory for 30.
    pub fn new(heap: Global) -> Result<Settings, Refusal>
        ensures { MatchResult result (λ s. list_of s ≡ []) (λ e. e ≡ NoMemory) }
    {
        let list = Vec::with_capacity(heap, Settings::MOST)?;
        Ok(Settings { list })
    }

    /// How many records are set.
    pub fn len(&self) -> usize
        ensures { result ≡ length (list_of self.now) }
    {
        self.list.len()
    }

    /// The settings in the order in which the records were first set.
    pub fn as_slice(&self) -> &[Setting]
        ensures { result.now ≡ list_of self.now }
    {
        self.list.as_slice()
    }

    /// The unit that a record is set to, if it is set.
    pub fn unit_of(&self, number: u64) -> Option<[u64; 32]>
        ensures { result ≡ setting_of (list_of self.now) number }
    {
        let setting = self.list.iter().find(|setting| setting.number == number)?;
        Some(setting.unit)
    }

    /// Sets a record of a disk of so many blocks. A record that is set already keeps its position and takes the new unit.
    pub fn put(&mut self, number: u64, unit: &[u64; 32], blocks: usize) -> Result<(), Refusal>
        ensures { Puts blocks (list_of self.old) number unit.now result (list_of self.new) }
    {
        if number / 16 >= blocks as u64 {
            return Err(Refusal::NoSuchRecord);
        }
        let setting = Setting {
            number,
            unit: *unit,
        };
        match position(self.list.as_slice(), number) {
            Some(i) => {
                self.list[i] = setting;
                Ok(())
            }
            None => {
                if self.list.len() >= Settings::MOST {
                    return Err(Refusal::TooManyRecords);
                }
                self.list.push_reserved(setting);
                Ok(())
            }
        }
    }

    /// Forgets all settings and keeps their memory.
    pub fn clear(&mut self)
        ensures { list_of self.new ≡ [] }
    {
        self.list.clear();
    }
}
