//! Which rings are sound, written out a second time: slowly, and from the writing side. A unit is a TxnInfo if it is word for
//! word what would be written for its own first words, for some Count from 1 to 30.

fn at(image: &[u64], word: usize) -> u64 {
    image.get(word).copied().unwrap_or(0)
}

// Whether two of the words from `first` on are equal, or one is no record of the disk.
fn numbers_fail(image: &[u64], first: usize, count: usize, records: u64) -> bool {
    for i in 0..count {
        let number = at(image, first.wrapping_add(i));
        if number >= records || (0..i).any(|j| at(image, first.wrapping_add(j)) == number) {
            return true;
        }
    }
    false
}

// Whether the unit at `first` is the TxnInfo of its first `count` words.
fn is_written(image: &[u64], first: usize, count: usize, records: u64) -> bool {
    let mut rest = count..32;
    let is_rest = rest.all(|j| {
        let expected = match j {
            30 => count as u64,
            31 => 0x7E5A_31C4_9B0D_26F8,
            _ => 0,
        };
        at(image, first.wrapping_add(j)) == expected
    });
    is_rest && !numbers_fail(image, first, count, records)
}

// The Count for which the unit is a TxnInfo, if there is one.
fn matching_count(image: &[u64], first: usize, records: u64) -> Option<usize> {
    (1..31).find(|count| is_written(image, first, *count, records))
}

/// Steps back from the tail, with remainders in place of wraps: how many transactions were met, or the bad place.
pub fn judge_slowly(image: &[u64], places: usize, records: u64) -> Result<usize, usize> {
    let mut met = 0usize;
    if places == 0 {
        return Ok(met);
    }
    let mut place = at(image, 16) as usize;
    let mut left = place
        .wrapping_add(places)
        .wrapping_sub(at(image, 8) as usize)
        % places;
    for _ in 0..places {
        if left == 0 {
            break;
        }
        let info = place.wrapping_add(places).wrapping_sub(1) % places;
        let first = info.wrapping_add(1).wrapping_mul(32);
        let taken = match matching_count(image, first, records) {
            Some(count) if count < left => count.wrapping_add(1),
            _ => return Err(info),
        };
        place = place.wrapping_add(places).wrapping_sub(taken) % places;
        left = left.wrapping_sub(taken);
        met = met.wrapping_add(1);
    }
    Ok(met)
}
