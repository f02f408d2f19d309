//! Lines of the output.
use commands::command::Draft;
use commands::make::make;
use printing::detail::Detail;
use printing::line::write_line;
use std::alloc::Global;

/// Whether the line is written so.
fn line_is(
    heap: Global,
    number: u64,
    state: char,
    answer: u32,
    detail: &Detail,
    text: &[u8],
) -> bool {
    let mut out = Vec::new(heap);
    write_line(&mut out, number, state, answer, detail).is_ok() && out.as_slice() == text
}

/// The detail of a record with these fields.
fn drawn(draft: Draft<'_>) -> Detail {
    match make(draft) {
        Ok(value) => Detail::Record(value),
        Err(_) => Detail::Nothing,
    }
}

#[test]
fn plain_lines(rt: HostRuntime) {
    assert!(rt; line_is(rt.alloc(), 1, 'u', 0, &Detail::Nothing, b"1\tu\t0\t-\n"));
    assert!(rt; line_is(rt.alloc(), 10, 'i', 0, &Detail::Count(2), b"10\ti\t0\t2\n"));
    assert!(rt;
        line_is(
            rt.alloc(),
            305,
            'o',
            43,
            &Detail::Nothing,
            b"305\to\t43\t-\n",
        )
    );
    assert!(rt; line_is(rt.alloc(), 8, 'd', 0, &Detail::Absent, b"8\td\t0\tabsent\n"));
}

#[test]
fn records_with_their_fields(rt: HostRuntime) {
    let mast = drawn(Draft::Mast {
        number: 7,
        name: b"Ridge",
    });
    assert!(rt; line_is(rt.alloc(), 8, 'i', 0, &mast, b"8\ti\t0\tmast\t7\tRidge\n"));
    let tile = drawn(Draft::Tile {
        column: 1,
        row: 20,
        plan: 300,
        level: -1999,
    });
    assert!(rt;
        line_is(
            rt.alloc(),
            9,
            'i',
            0,
            &tile,
            b"9\ti\t0\ttile\t1\t20\t300\t-1999\n",
        )
    );
}
