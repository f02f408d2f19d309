//! What holds of every simulated disk, over all lists of acts and all lists that one is made of.
ghost use Rattle.device.specs.Sectors.{disk_rules};
ghost use Rattle.simulated.specs.Lasting.{Lasts};
ghost use Rattle.disks.specs.State.{patient, prompt, MadeAsListed};

/// Over any list of acts both disks have power for exactly as many performed acts as they had left, and go dark at the next.
pub fn power_lasts()
    ensures patient { Lasts disk_rules patient }
    ensures prompt { Lasts disk_rules prompt }
{}

/// A disk made of lists has, in each sector of its blocks, what the lists say there.
pub fn lists_are_kept()
    ensures { MadeAsListed }
{}
