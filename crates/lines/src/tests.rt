//! Lines, fields and numbers at their edges.
use crate::numeral::{level, number};
use crate::split::{Split, field, first_line, has_fields};

fn parts<'a>(line: &'a [u8], rest: &'a [u8]) -> Option<Split<'a>> {
    Some(Split { line, rest })
}

#[test]
fn lines_end_at_newlines_alone(rt: HostRuntime) {
    assert_eq!(rt; first_line(b""), None);
    assert_eq!(rt; first_line(b"a\tb\r\nc"), parts(b"a\tb\r", b"c"));
    assert_eq!(rt; first_line(b"c"), parts(b"c", b""));
    assert_eq!(rt; first_line(b"c\n"), parts(b"c", b""));
    assert_eq!(rt; first_line(b"\n\n"), parts(b"", b"\n"));
}

#[test]
fn every_tab_parts_fields(rt: HostRuntime) {
    assert!(rt; has_fields(b"", 1));
    assert!(rt; !has_fields(b"", 0));
    assert!(rt; has_fields(b"\t", 2));
    assert!(rt; has_fields(b"a\t\tb c", 3));
    assert_eq!(rt; field(b"a\t\tb c", 0), Some(b"a".as_slice()));
    assert_eq!(rt; field(b"a\t\tb c", 1), Some(b"".as_slice()));
    assert_eq!(rt; field(b"a\t\tb c", 2), Some(b"b c".as_slice()));
    assert_eq!(rt; field(b"a\t\tb c", 3), None);
}

#[test]
fn words_are_digits_below_two_to_the_64(rt: HostRuntime) {
    assert_eq!(rt; number(b"0007"), Some(7));
    assert_eq!(rt; number(b"0000000000000000000000"), Some(0));
    assert_eq!(rt;
        number(b"0018446744073709551615"),
        Some(18446744073709551615)
    );
    assert_eq!(rt; number(b"18446744073709551615"), Some(18446744073709551615));
    assert_eq!(rt; number(b"18446744073709551616"), None);
    assert_eq!(rt; number(b"99999999999999999999"), None);
    assert_eq!(rt; number(b""), None);
    assert_eq!(rt; number(b"+1"), None);
    assert_eq!(rt; number(b"1 "), None);
}

#[test]
fn levels_have_16_bits(rt: HostRuntime) {
    assert_eq!(rt; level(b"-0"), Some(0));
    assert_eq!(rt; level(b"-0032768"), Some(-32768));
    assert_eq!(rt; level(b"-32769"), None);
    assert_eq!(rt; level(b"32767"), Some(32767));
    assert_eq!(rt; level(b"32768"), None);
    assert_eq!(rt; level(b"-"), None);
    assert_eq!(rt; level(b"--1"), None);
}
