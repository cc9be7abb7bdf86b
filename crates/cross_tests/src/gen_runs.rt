//! Runs of the workload.
use psx_base::{MemoryHost, Out};
use psxk_run::psxk;
use std::process::Abort;
use test_hosts::stands_in;

/// Room for the trace of a thousand rounds, most of which is of tries of the call that waits.
const ROOM: usize = 26_000_000;

// The host behind a run of so many rounds, which ends well.
fn runs<R: AllocGlobal + Abort>(rt: &R, rounds: &str) -> MemoryHost {
    let mut host = MemoryHost::new(rt.alloc(), ROOM).expect(rt, "room");
    assert_eq!(rt;
        psxk(rt.alloc(), &["gen", rounds], &mut host),
        0,
        "{rounds}"
    );
    assert_eq!(rt; host.sent(Out::Ram).len(), 2_098_176, "{rounds}");
    assert_eq!(rt; host.sent(Out::Report), b"".as_slice(), "{rounds}");
    host
}

#[test]
fn prints_the_sums_of_one_round(rt: HostRuntime) {
    let host = runs(&rt, "1");
    assert_eq!(rt; host.sent(Out::Tty), b"n=1 a=1 h=3\n".as_slice());
    let trace = host.sent(Out::Trace);
    assert!(rt; trace.starts_with(b"B 38941\n"));
    assert!(rt; trace.ends_with(b" Exit 00000000\n"));
    assert!(rt; stands_in(trace, b"\nE 500105 00000400 000000B0 I 00000000\n"));
}

#[test]
fn prints_the_sums_of_a_hundred_rounds_the_same_each_time(rt: HostRuntime) {
    let host = runs(&rt, "100");
    assert_eq!(rt; host.sent(Out::Tty), b"n=100 a=5050 h=11310\n".as_slice());
    assert!(rt; host.sent(Out::Trace).ends_with(b" Exit 00000000\n"));
    let again = runs(&rt, "100");
    assert_eq!(rt; again.sent(Out::Tty), host.sent(Out::Tty));
    assert!(rt; again.sent(Out::Trace) == host.sent(Out::Trace));
    assert!(rt; again.sent(Out::Ram) == host.sent(Out::Ram));
}

#[test]
fn prints_the_sums_of_a_thousand_rounds(rt: HostRuntime) {
    let host = runs(&rt, "1000");
    assert_eq!(rt;
        host.sent(Out::Tty),
        b"n=1000 a=500500 h=125500\n".as_slice()
    );
    assert!(rt;
        host.sent(Out::Trace)
            .ends_with(b"\nS 10493395 Exit 00000000\n")
    );
}

#[test]
fn takes_one_to_a_thousand_rounds(rt: HostRuntime) {
    for words in [
        &["gen"][..],
        &["gen", "x"],
        &["gen", ""],
        &["gen", "0"],
        &["gen", "01"],
        &["gen", "+1"],
        &["gen", "-"],
        &["gen", "1001"],
        &["gen", "4294967297"],
        &["gen", "1", "1"],
    ] {
        let mut host = MemoryHost::new(rt.alloc(), 1000).expect(&rt, "room");
        assert_eq!(rt; psxk(rt.alloc(), words, &mut host), 2, "{words:?}");
        assert!(rt;
            host.sent(Out::Report).starts_with(b"psxk: usage: "),
            "{words:?}"
        );
        assert_eq!(rt; host.sent(Out::Tty), b"".as_slice(), "{words:?}");
        assert_eq!(rt; host.sent(Out::Ram), b"".as_slice(), "{words:?}");
    }
}
