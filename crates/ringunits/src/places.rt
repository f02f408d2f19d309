//! Places of a ring, and the homes of records.
ghost use Rattle.std.specs.Prelude.{◌≡◌, ◌+◌, ◌<◌, ◌≤◌};
ghost use Rattle.ringlaws.specs.Layout.{after, before, used_between, is_ring, home_block, home_word};

/// The most places that a ring may have.
pub const MOST_PLACES: usize = 255;

/// The numbers of a ring: how many places it has, the place where its used part begins, and the place where that ends.
#[derive(Clone, Copy, PartialEq, Eq, Debug)]
pub struct Ring {
    pub places: usize,
    pub head: usize,
    pub tail: usize,
}

impl Ring {
    /// Whether head and tail are places of a ring of so many.
    pub fn is_valid(self) -> bool
        ensures { result ≡ is_ring self.places self.head self.tail }
    {
        self.places <= MOST_PLACES && self.head < self.places && self.tail < self.places
    }

    /// How many places are used.
    pub fn used(self) -> usize
        requires { (self.head < self.places) × (self.tail < self.places) }
        ensures { result ≡ used_between self.places self.head self.tail }
    {
        place_before(self.places, self.tail, self.head)
    }
}

/// The place `steps` places before a place. Whatever steps back goes by this.
pub fn place_before(places: usize, place: usize, steps: usize) -> usize
    requires { (place < places) × (steps ≤ places) }
    ensures { result ≡ before places place steps }
{
    if steps <= place {
        place - steps
    } else {
        place + (places - steps)
    }
}

/// The place `steps` places after a place.
pub fn place_after(places: usize, place: usize, steps: usize) -> usize
    requires { (place < places) × (steps ≤ places) }
    ensures { result ≡ after places place steps }
{
    if steps < places - place {
        place + steps
    } else {
        steps - (places - place)
    }
}

/// Where a record has its home on the disk.
#[derive(Clone, Copy, PartialEq, Eq, Debug)]
pub struct Home {
    pub block: usize,
    pub word: usize,
}

/// The home of a record: its block, and its first word there.
pub fn home_of(record_number: usize) -> Home
    ensures { (result.block ≡ home_block record_number) × (result.word ≡ home_word record_number) }
{
    Home {
        block: record_number / 16,
        word: 32 * (record_number % 16),
    }
}
