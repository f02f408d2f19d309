//! One step back: the transaction before a place.
ghost use Rattle.std.specs.Prelude.{◌≡◌, ◌≤◌, take};
ghost use Rattle.ringlaws.specs.TxnInfo.{count_limit};

/// The transaction that ends before a place: the place where it begins, the used places left before that, how many records it
/// has, and its TxnInfo.
#[derive(Clone, Copy)]
pub struct Step {
    pub first: usize,
    pub left: usize,
    pub count: usize,
    // Kept: the 32 words of the unit as they lie in the ring, which is their format; `numbers` is the part that counts.
    pub info: [u64; 32],
}

impl Step {
    /// The numbers of the transaction's records, in the order of their places.
    pub fn numbers(&self) -> &[u64]
        requires { self.now.count ≤ count_limit }
        ensures { result.now ≡ take self.now.count self.now.info }
    {
        &self.info[..self.count]
    }
}
