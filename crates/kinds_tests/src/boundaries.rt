//! What is just inside a range passes, and what is just outside is refused with its number.
use mast::record::Mast;
use refusal::reason::Refusal;
use tile::record::Tile;

/// The number of the refusal, if it is one.
fn number<T: Drop>(made: Result<T, Refusal>) -> Option<u32> {
    made.err().map(Refusal::number)
}

#[test]
fn levels(rt: HostRuntime) {
    assert_eq!(rt; number(Tile::flat(1, 2, 3, -2000)), None);
    assert_eq!(rt; number(Tile::flat(1, 2, 3, 500)), None);
    assert_eq!(rt; number(Tile::flat(1, 2, 3, -2001)), Some(41));
    assert_eq!(rt; number(Tile::flat(1, 2, 3, 501)), Some(41));
}

#[test]
fn one_bad_level_of_many(rt: HostRuntime) {
    let mut levels = [-800i16; 112];
    levels[111] = 501;
    assert_eq!(rt; number(Tile::new(1, 2, 3, &levels)), Some(41));
}

#[test]
fn columns_and_rows(rt: HostRuntime) {
    assert_eq!(rt; number(Tile::flat(65535, 65535, u64::MAX, 0)), None);
    assert_eq!(rt; number(Tile::flat(65536, 0, 0, 0)), Some(40));
    assert_eq!(rt; number(Tile::flat(0, 65536, 0, 0)), Some(40));
    assert_eq!(rt;
        number(Tile::flat(65536, 0, 0, 501)),
        Some(40),
        "the place comes before the level"
    );
}

#[test]
fn name_lengths(rt: HostRuntime) {
    assert_eq!(rt; number(Mast::new(7, b"R")), None);
    assert_eq!(rt; number(Mast::new(7, &[0x41; 232])), None);
    assert_eq!(rt; number(Mast::new(7, b"")), Some(42));
    assert_eq!(rt; number(Mast::new(7, &[0x41; 233])), Some(42));
    assert_eq!(rt;
        number(Mast::new(7, &[0x1f; 233])),
        Some(42),
        "the length comes before the bytes"
    );
}

#[test]
fn name_bytes(rt: HostRuntime) {
    assert_eq!(rt; number(Mast::new(7, &[0x20])), None);
    assert_eq!(rt; number(Mast::new(7, &[0x7e])), None);
    assert_eq!(rt; number(Mast::new(7, &[0x1f])), Some(43));
    assert_eq!(rt; number(Mast::new(7, &[0x7f])), Some(43));
}
