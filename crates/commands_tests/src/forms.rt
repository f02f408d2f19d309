//! Which lines are commands.
use commands::parse::parse;

#[test]
fn verbs_stand_alone(rt: HostRuntime) {
    assert!(rt; parse(b"format").is_some());
    assert!(rt; parse(b"checkpoint").is_some());
    assert!(rt; parse(b"").is_none());
    assert!(rt; parse(b" format").is_none());
    assert!(rt; parse(b"Format").is_none());
    assert!(rt; parse(b"format\r").is_none());
    assert!(rt; parse(b"format\t").is_none());
}

#[test]
fn records_are_words(rt: HostRuntime) {
    assert!(rt; parse(b"clear\t0005").is_some());
    assert!(rt; parse(b"show\t18446744073709551615").is_some());
    assert!(rt; parse(b"show\t18446744073709551616").is_none());
    assert!(rt; parse(b"show\t+5").is_none());
    assert!(rt; parse(b"show").is_none());
}

#[test]
fn records_to_set_have_their_fields(rt: HostRuntime) {
    assert!(rt; parse(b"mast\t5\t7\tRidge").is_some());
    assert!(rt;
        parse(b"mast\t5\t7\t").is_some(),
        "an empty name is judged later"
    );
    assert!(rt; parse(b"mast\t5\t7").is_none());
    assert!(rt; parse(b"tile\t5\t70000\t2\t3\t-0").is_some());
    assert!(rt; parse(b"tile\t5\t1\t2\t3\t32768").is_none());
    assert!(rt; parse(b"tile\t5\t1\t2\t-3\t4").is_none());
}

#[test]
fn restarts_are_old_or_new(rt: HostRuntime) {
    assert!(rt; parse(b"restart\told\t1000000\t0").is_some());
    assert!(rt; parse(b"restart\tnew\t0\t1").is_some());
    assert!(rt; parse(b"restart\tolder\t0\t1").is_none());
    assert!(rt; parse(b"restart\told\t0").is_none());
}
