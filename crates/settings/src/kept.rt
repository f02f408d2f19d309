//! The settings themselves. All their memory is taken when they are made.
ghost use Rattle.std.specs.Prelude.{◌≡◌, ◌≤◌, true, vec_len, vec_capacity};
ghost use Rattle.ringlaws.specs.TxnInfo.{numbers_of, distinct};

use ringlaws::setting::Setting;

/// At most 30 settings of different records, with memory for all of them.
#[derive(Drop)]
pub struct Settings {
    pub(crate) list: Vec<Setting>,
    ghost few: { vec_len list ≤ 30 },
    ghost room: { 30 ≤ vec_capacity list },
    ghost apart: { distinct (numbers_of list.items) ≡ true },
}
