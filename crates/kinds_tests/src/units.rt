//! A record's unit reads as that record, and damaged units do not read.
use joined::kind::JoinedKind;
use joined::record::Joined;
use kinds::kind::RecordKind;
use mast::kind::MastKind;
use mast::record::Mast;
use std::test::Fail;
use tile::kind::TileKind;
use tile::record::Tile;

/// The unit of a record of either kind.
fn unit_of(record: &Joined) -> [u64; 32] {
    let mut words = [u64::MAX; 32];
    JoinedKind::encode(record, &mut words);
    words
}

#[test]
fn words_of_a_tile(rt: HostRuntime) -> Result<(), Fail> {
    let mut levels = [0i16; 112];
    levels[0] = -2000;
    levels[1] = 500;
    levels[7] = -1;
    let tile = Tile::new(3, 4, 5, &levels)?;
    let words = unit_of(&Joined::from(tile));
    assert_eq!(rt; [words[0], words[1], words[2], words[3]], [1, 3, 4, 5]);
    assert_eq!(rt;
        [words[4], words[5], words[31]],
        [0x01f4_f830, 0xffff_0000_0000_0000, 0]
    );
    assert_eq!(rt; TileKind::decode(&words), Some(tile));
    assert_eq!(rt; MastKind::decode(&words), None);
    Ok(())
}

#[test]
fn words_of_a_mast(rt: HostRuntime) -> Result<(), Fail> {
    let mast = Mast::new(9, b"Ridge")?;
    let words = unit_of(&mast.into());
    assert_eq!(rt;
        [words[0], words[1], words[2], words[3], words[4]],
        [2, 9, 5, 0x65_6764_6952, 0]
    );
    assert_eq!(rt; MastKind::decode(&words), Some(mast));
    assert_eq!(rt; JoinedKind::decode(&words), Some(Joined::Mast(mast)));
    assert_eq!(rt; TileKind::decode(&words), None);
    Ok(())
}

/// With all bits of one word turned, a unit reads only where that word may hold any number: a tile's plan, a mast's number.
#[test]
fn damaged_units(rt: HostRuntime) -> Result<(), Fail> {
    let tile = unit_of(&Tile::flat(3, 4, 5, -800)?.into());
    let mast = unit_of(&Mast::new(9, b"Ridge")?.into());
    for i in 0..32usize {
        let mut words = tile;
        words[i] ^= u64::MAX;
        assert_eq!(rt; JoinedKind::decode(&words).is_some(), i == 3);
        words = mast;
        words[i] ^= u64::MAX;
        assert_eq!(rt; JoinedKind::decode(&words).is_some(), i == 1);
    }
    Ok(())
}

#[test]
fn zeros_do_not_read(rt: HostRuntime) {
    assert_eq!(rt; JoinedKind::decode(&[0; 32]), None);
}

#[test]
fn records_as_text(rt: HostRuntime) -> Result<(), Fail> {
    let tile = Tile::flat(3, 4, 5, -800)?;
    assert_eq!(rt;
        format!(in rt.alloc(); "{tile}")?.as_str(),
        "tile\t3\t4\t5\t-800"
    );
    let mast = Mast::new(9, b"Ridge")?;
    assert_eq!(rt;
        format!(in rt.alloc(); "{mast}")?.as_str(),
        "mast\t9\tRidge"
    );
    Ok(())
}
