//! A small ring in memory.
ghost use Rattle.std.specs.Prelude.{◌≡◌, ◌≤◌, vec_len, vec_capacity};

use ringlaws::setting::Setting;

/// An image of a memory that holds a ring of 32 places, and the settings that wait to be committed to it as one transaction.
#[derive(Drop)]
pub struct RingDesk {
    pub(crate) image: Vec<u64>,
    pub(crate) waiting: Vec<Setting>,
    ghost long: { vec_len image ≡ 1056 },
    ghost room: { 30 ≤ vec_capacity waiting },
}
