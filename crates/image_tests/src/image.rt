//! Images of a memory of 33 units and a disk of 2 blocks, built by hand.
use asked::asks::record_of;
use joined::kind::JoinedKind;
use kinds::kind::RecordKind;
use std::alloc::Global;
use std::test::Fail;

pub const GROUND: u64 = 0x3C91_E07D_58A2_B46F;

pub const MAGIC: u64 = 0x7E5A_31C4_9B0D_26F8;

/// The words of both devices. A home on the disk is a unit too: record r has its home in unit r.
#[derive(Drop)]
pub struct Image {
    pub nvm: Vec<u64>,
    pub disk: Vec<u64>,
}

/// A word, or 0 beyond the end.
pub fn word(words: &Vec<u64>, number: usize) -> u64 {
    words.get(number).copied().unwrap_or(0)
}

/// Gives a word a value.
pub fn put(words: &mut Vec<u64>, number: usize, value: u64) {
    if let Some(place) = words.get_mut(number) {
        *place = value;
    }
}

/// Unit 0 and up.
pub fn unit(words: &Vec<u64>, number: u8) -> [u64; 32] {
    let mut found = [0; 32];
    let start = 32 * usize::from(number);
    for (place, at) in found.iter_mut().zip(start..start + 32) {
        *place = word(words, at);
    }
    found
}

/// Writes a unit.
pub fn put_unit(words: &mut Vec<u64>, number: u8, from: &[u64; 32]) {
    let start = 32 * usize::from(number);
    for (value, at) in from.iter().zip(start..start + 32) {
        put(words, at, *value);
    }
}

/// The unit of a value: zeros for 0, and for 1,000 a unit that is no record.
pub fn unit_of(value: u64) -> Result<[u64; 32], Fail> {
    let mut words = [0; 32];
    if value == 1000 {
        words[0] = 7;
    } else if value != 0 {
        JoinedKind::encode(&record_of(value)?, &mut words);
    }
    Ok(words)
}

/// Lays a transaction from a place on.
fn put_transaction(nvm: &mut Vec<u64>, place: u8, settings: &[(u64, u64)]) -> Result<(), Fail> {
    let mut info = [0; 32];
    let mut at = place;
    let mut count = 0usize;
    for (number, value) in settings {
        put_unit(nvm, at % 32 + 1, &unit_of(*value)?);
        info[count % 30] = *number;
        count = count.wrapping_add(1);
        at = at.wrapping_add(1);
    }
    info[30] = count as u64;
    info[31] = MAGIC;
    put_unit(nvm, at % 32 + 1, &info);
    Ok(())
}

/// Three transactions of six records, around the end of the ring; five of the used places are theirs. Some records are at home, one of
/// them no record.
pub fn sound_image(heap: Global) -> Result<Image, Fail> {
    let mut nvm = vec![in heap; 0xAAAA; 1056]?;
    put_unit(&mut nvm, 0, &[0; 32]);
    put(&mut nvm, 0, GROUND);
    put(&mut nvm, 1, 32);
    put(&mut nvm, 2, 2);
    put(&mut nvm, 8, 30);
    put(&mut nvm, 16, 7);
    put_transaction(&mut nvm, 30, &[(5, 13), (3, 0)])?;
    put_transaction(&mut nvm, 1, &[(20, 12)])?;
    put_transaction(&mut nvm, 3, &[(5, 21), (21, 1000), (4, 15)])?;
    let mut disk = vec![in heap; 0; 1024]?;
    for (number, value) in [(3, 9), (7, 1000), (8, 16), (20, 18), (31, 19)] {
        put_unit(&mut disk, number, &unit_of(value)?);
    }
    Ok(Image { nvm, disk })
}
