//! A unit judged as a TxnInfo.
ghost use Rattle.std.specs.Prelude.{◌≡◌, ◌+◌, ◌*◌, ◌≤◌, ◌&&◌, nat_le};
ghost use Rattle.ringlaws.specs.TxnInfo.{count_limit, taken, member, distinct, all_below, all_zero, good_numbers, good_count, good_info};

/// The last word of a TxnInfo. A record's unit may end in the same word, so nothing ever searches for it.
pub const MAGIC: u64 = 0x7E5A_31C4_9B0D_26F8;
/// The most records of a transaction.
pub const COUNT_LIMIT: usize = 30;

/// The places that a transaction of so many records takes: the records, then its TxnInfo.
pub fn places_taken(count: usize) -> usize
    requires { count ≤ count_limit }
    ensures { result ≡ taken count }
{
    count + 1
}

/// Whether the words are all zero.
#[tactic(auto, unfolding(ringlaws::specs::TxnInfo::all_zero))]
pub fn all_zero(words: &[u64]) -> bool
    ensures { result ≡ all_zero words.now }
{
    words.iter().all(|word| *word == 0)
}

/// Whether the numbers are records of a disk of so many blocks, and all different.
// Kept: the project's rules name the form of this test, a `for` with an index over the numbers of a TxnInfo.
pub fn good_numbers(numbers: &[u64], blocks: usize) -> bool
    ensures { result ≡ good_numbers blocks numbers.now }
{
    for i in 0..numbers.len() {
        if numbers[i] / 16 >= blocks as u64 {
            return false;
        }
        if numbers[i + 1..].contains(&numbers[i]) {
            return false;
        }
    }
    true
}

/// Whether Count is possible with so many used places left.
pub fn good_count(count: u64, left: usize) -> bool
    ensures { result ≡ (nat_le 1 count && (nat_le count count_limit && nat_le (taken count) left)) }
{
    1 <= count && count <= COUNT_LIMIT as u64 && places_taken(count as usize) <= left
}

/// Whether the unit is a TxnInfo, with so many used places left up to it and itself.
pub fn is_info(words: &[u64; 32], blocks: usize, left: usize) -> bool
    ensures { result ≡ good_info blocks left words.now }
{
    let count = words[30];
    if words[31] != MAGIC || !good_count(count, left) {
        return false;
    }
    let count = count as usize;
    good_numbers(&words[0..count], blocks) && all_zero(&words[count..COUNT_LIMIT])
}
