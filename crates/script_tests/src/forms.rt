//! The forms of lines, the listing, every refusal, and the longest script.
use crate::runs::{ends_with, prints};
use std::test::Fail;

#[test]
fn the_listing_prints_its_lines(rt: HostRuntime) -> Result<(), Fail> {
    let script =
        b"format\nmount\nbegin\nmast\t5\t7\tRidge\ncommit\nrestart\told\t1000000\t1000000\nmount\nshow\t5\n";
    let lines =
        b"1\tu\t0\t-\n2\ti\t0\t0\n3\to\t0\t-\n4\to\t0\t-\n5\ti\t0\t2\n6\tu\t0\t-\n7\ti\t0\t1\n8\ti\t0\tmast\t7\tRidge\n";
    assert!(rt; prints(rt.alloc(), script, lines)?);
    Ok(())
}

#[test]
fn lines_of_another_form_say_90(rt: HostRuntime) -> Result<(), Fail> {
    let lines: [&[u8]; 20] = [
        b"\n",
        b"Format",
        b"format ",
        b"format\t",
        b"formats",
        b"mount\r\n",
        b"show",
        b"show\t",
        b"show\t+1",
        b"show\t-1",
        b"show\t1x",
        b"show\t18446744073709551616",
        b"clear\t1\t2",
        b"mast\t1\t2",
        b"mast\t1\t\tRidge",
        b"tile\t1\t2\t3\t4",
        b"tile\t1\t2\t3\t4\t32768",
        b"restart\told\t1",
        b"restart\tOld\t1\t1",
        b"\xff\xfe",
    ];
    for line in lines {
        assert!(rt; prints(rt.alloc(), line, b"1\tu\t90\t-\n")?);
    }
    assert!(rt; prints(rt.alloc(), b"", b"")?);
    Ok(())
}

#[test]
fn every_refusal_of_a_line_has_its_turn(rt: HostRuntime) -> Result<(), Fail> {
    let heap = rt.alloc();
    assert!(rt;
        prints(
            heap,
            b"mount\nshow\t1\nbegin\ncommit\nclose",
            b"1\tu\t11\t-\n2\tu\t21\t-\n3\tu\t21\t-\n4\tu\t23\t-\n5\tu\t21\t-\n",
        )?
    );
    assert!(rt; prints(heap, b"tile\t99\t65536\t0\t0\t501", b"1\tu\t23\t-\n")?);
    let open =
        b"format\nmount\nformat\nbegin\nbegin\nclose\ntile\t99\t65536\t0\t0\t501\ntile\t99\t0\t0\t0\t501\nmast\t99\t1\t\nmast\t99\t1\t\x7f\nmast\t99\t1\tx\nclear\t32\nshow\t32\nclear\t0031\nshow\t31\ncommit\nabandon";
    let said =
        b"1\tu\t0\t-\n2\ti\t0\t0\n3\ti\t20\t-\n4\to\t0\t-\n5\to\t22\t-\n6\to\t22\t-\n7\to\t40\t-\n8\to\t41\t-\n9\to\t42\t-\n10\to\t43\t-\n11\to\t31\t-\n12\to\t31\t-\n13\to\t31\t-\n14\to\t0\t-\n15\to\t0\tabsent\n16\ti\t0\t2\n17\ti\t23\t-\n";
    assert!(rt; prints(heap, open, said)?);
    Ok(())
}

#[test]
fn a_tile_comes_back_as_it_was_set(rt: HostRuntime) -> Result<(), Fail> {
    let script =
        b"format\nmount\nbegin\ntile\t16\t00120\t45\t18446744073709551615\t-0905\nshow\t16\nabandon\nshow\t16\nbegin\ntile\t16\t120\t45\t3\t500\ncommit\ncheckpoint\ncheckpoint\nshow\t16\nclose\nmount\nshow\t16";
    let tail =
        b"\n5\to\t0\ttile\t120\t45\t18446744073709551615\t-905\n6\ti\t0\t-\n7\ti\t0\tabsent\n8\to\t0\t-\n9\to\t0\t-\n10\ti\t0\t2\n11\ti\t0\t1\n12\ti\t0\t0\n13\ti\t0\ttile\t120\t45\t3\t500\n14\tu\t0\t-\n15\ti\t0\t0\n16\ti\t0\ttile\t120\t45\t3\t500\n";
    assert!(rt; ends_with(rt.alloc(), script, tail)?);
    Ok(())
}

#[test]
fn a_script_has_65536_bytes_at_most(rt: HostRuntime) -> Result<(), Fail> {
    let heap = rt.alloc();
    let mut script = Vec::with_capacity(heap, 65537)?;
    for _ in 0..65536 {
        script.push(b'\n')?;
    }
    assert!(rt;
        ends_with(
            heap,
            script.as_slice(),
            b"\n65535\tu\t90\t-\n65536\tu\t90\t-\n",
        )?
    );
    script.push(b'\n')?;
    assert!(rt; prints(heap, script.as_slice(), b"0\tu\t91\t-\n")?);
    Ok(())
}
