//! What a mount of an image must answer, and what the table is then, by the rules and in the simplest way.
use crate::image::*;
use asked::asks::{Reply, value_of};
use joined::kind::JoinedKind;
use kinds::kind::RecordKind;

/// The Count of a TxnInfo, or 0 for a unit that is none with so many places left.
fn count_of(info: &[u64; 32], left: usize) -> usize {
    let count = info[30];
    if info[31] != MAGIC || count == 0 || count > 30 || count >= left as u64 {
        return 0;
    }
    let (numbers, padding) = info[..30].split_at(count as usize);
    for (i, number) in numbers.iter().enumerate() {
        if *number >= 32 || numbers[..i].contains(number) {
            return 0;
        }
    }
    if padding.iter().any(|word| *word != 0) {
        return 0;
    }
    numbers.len()
}

/// Lays what a transaction set over the homes, but for records that a newer one has set.
fn lay(
    nvm: &Vec<u64>,
    disk: &mut Vec<u64>,
    info: &[u64; 32],
    first: usize,
    newer: &mut [bool; 32],
) {
    for (i, number) in info[..30].iter().enumerate() {
        if (i as u64) < info[30] {
            let number = (*number % 32) as u8;
            if !newer[usize::from(number)] {
                newer[usize::from(number)] = true;
                let place = (first.wrapping_add(i) % 32) as u8;
                put_unit(disk, number, &unit(nvm, place + 1));
            }
        }
    }
}

/// Whether a record of a block was set.
fn is_home(newer: &[bool; 32], block: u8) -> bool {
    let first = usize::from(block % 2) * 16;
    newer[first..first + 16].contains(&true)
}

/// What a mount of the image must answer. The disk is then as the mount leaves it.
pub fn mounted(image: &mut Image) -> Reply {
    let head = word(&image.nvm, 8);
    let tail = word(&image.nvm, 16);
    if word(&image.nvm, 0) != GROUND {
        return Reply::No(11);
    }
    if word(&image.nvm, 1) != 32 || word(&image.nvm, 2) != 2 || head >= 32 || tail >= 32 {
        return Reply::No(12);
    }
    let mut left = ((tail + 32 - head) % 32) as usize;
    let mut at = tail as usize;
    let mut newer = [false; 32];
    for _ in 0..32u8 {
        if left == 0 {
            break;
        }
        let place = at.wrapping_add(31) % 32;
        let info = unit(&image.nvm, place as u8 + 1);
        let count = count_of(&info, left);
        if count == 0 {
            return Reply::Unsound(place);
        }
        at = place.wrapping_add(32).wrapping_sub(count) % 32;
        left = left.wrapping_sub(count).wrapping_sub(1);
        lay(&image.nvm, &mut image.disk, &info, at, &mut newer);
    }
    let first = is_home(&newer, 0) as usize;
    let second = is_home(&newer, 1) as usize;
    Reply::Blocks(first + second)
}

/// What a read must answer, by what the disk holds.
pub fn reading(disk: &Vec<u64>, number: u8) -> Reply {
    let words = unit(disk, number);
    if words == [0; 32] {
        return Reply::Absent;
    }
    match JoinedKind::decode(&words) {
        None => Reply::No(34),
        Some(found) => match value_of(&found) {
            Some(value) => Reply::Found(value),
            None => Reply::Strange,
        },
    }
}
