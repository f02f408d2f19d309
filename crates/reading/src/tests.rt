//! Readers that give all at once, byte by byte, or fail.
use crate::read_past;
use std::io;
use std::io::{ErrorKind, Read};
use std::test::Fail;

/// A reader that gives its bytes one at a time, and may fail after the last.
#[derive(Drop)]
struct Slow {
    left: u8,
    fails: bool,
}

impl Read for Slow {
    fn read(&mut self, buf: &mut [u8]) -> io::Result<usize> {
        if buf.is_empty() {
            return Ok(0);
        }
        if self.left == 0 {
            return if self.fails {
                Err(io::Error::from(ErrorKind::BrokenPipe))
            } else {
                Ok(0)
            };
        }
        buf[0] = self.left;
        self.left -= 1;
        Ok(1)
    }
}

#[test]
fn a_text_is_read_to_its_end_or_one_past_the_limit(rt: HostRuntime) -> Result<(), Fail> {
    let heap = rt.alloc();
    assert!(rt; read_past(heap, b"abc".as_slice(), 4)?.as_slice() == b"abc".as_slice());
    assert!(rt; read_past(heap, b"abc".as_slice(), 3)?.as_slice() == b"abc".as_slice());
    assert!(rt; read_past(heap, b"abc".as_slice(), 2)?.as_slice() == b"abc".as_slice());
    assert!(rt; read_past(heap, b"abc".as_slice(), 1)?.as_slice() == b"ab".as_slice());
    Ok(())
}

#[test]
fn bytes_that_come_one_by_one_are_all_read(rt: HostRuntime) -> Result<(), Fail> {
    let slow = Slow {
        left: 5,
        fails: false,
    };
    assert!(rt; read_past(rt.alloc(), slow, 9)?.as_slice() == [5u8, 4, 3, 2, 1].as_slice());
    Ok(())
}

#[test]
fn a_failure_in_mid_stream_is_no_end(rt: HostRuntime) {
    let failing = Slow {
        left: 5,
        fails: true,
    };
    assert!(rt; read_past(rt.alloc(), failing, 9).is_err());
}
