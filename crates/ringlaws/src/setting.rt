//! A setting: a record's number and the unit that it takes.

/// One record of a transaction: its number and its unit of 32 words. Specifications speak of the same type.
#[derive(Clone, Copy, PartialEq, Eq, Debug)]
pub struct Setting {
    pub number: u64,
    pub unit: [u64; 32],
}
