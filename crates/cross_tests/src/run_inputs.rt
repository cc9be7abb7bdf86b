//! Runs with a schedule and a configuration.
use crate::hosts::{host_of, program};
use psx_base::{MemoryHost, Out};
use psxk_run::psxk;
use std::process::Abort;
use test_hosts::{HELLO, HELLO_TRACE};

const WORDS: [&str; 5] = ["run", "a.exe", "s", "2000000", "c"];

// A host that holds a program, the schedule `s` and the configuration `c`.
fn host_with_texts<R: AllocGlobal + Abort>(rt: &R, schedule: &[u8], config: &[u8]) -> MemoryHost {
    let mut host = host_of(rt, &program(rt, &HELLO));
    host.put("s", schedule).expect(rt, "put");
    host.put("c", config).expect(rt, "put");
    host
}

// A schedule and a configuration, and the status and report of a run with them.
fn answers<R: AllocGlobal + Abort>(
    rt: &R,
    schedule: &[u8],
    config: &[u8],
    status: u8,
    report: &[u8],
) {
    let mut host = host_with_texts(rt, schedule, config);
    assert_eq!(rt; psxk(rt.alloc(), &WORDS, &mut host), status, "{report:?}");
    assert_eq!(rt; host.sent(Out::Report), report);
    assert_eq!(rt; host.sent(Out::Trace).is_empty(), status != 0);
}

#[test]
fn runs_with_both(rt: HostRuntime) {
    let mut host = host_with_texts(&rt, b"5 byte 0A\n7 line 0\n", b"TCB = 6\r\nEVENT = 20\r\n");
    assert_eq!(rt; psxk(rt.alloc(), &WORDS, &mut host), 0);
    assert_eq!(rt; host.sent(Out::Tty), b"A".as_slice());
    assert_eq!(rt; host.sent(Out::Trace), HELLO_TRACE);
}

#[test]
fn names_the_first_fault(rt: HostRuntime) {
    answers(&rt, b"", b"", 0, b"");
    answers(&rt, b"5 byte 0a\n", b"", 4, b"psxk: schedule: BadLine 1\n");
    let late = b"7 line 0\n5 byte 0A\n";
    answers(
        &rt,
        late,
        b"TCB = 3\n",
        4,
        b"psxk: schedule: OutOfOrder 2\n",
    );
    answers(&rt, b"", b"TCB = 3\n", 9, b"psxk: config: Range 1\n");
    answers(&rt, b"", b"\nTCB\n", 9, b"psxk: config: BadLine 2\n");
}

#[test]
fn names_what_is_not_read(rt: HostRuntime) {
    for (load, report) in [
        (1, b"psxk: read a.exe\n".as_slice()),
        (2, b"psxk: read s\n"),
        (3, b"psxk: read c\n"),
    ] {
        let mut host = host_with_texts(&rt, b"", b"");
        host.fail_load(load).expect(&rt, "room");
        assert_eq!(rt; psxk(rt.alloc(), &WORDS, &mut host), 5);
        assert_eq!(rt; host.sent(Out::Report), report);
    }
    let mut host = host_with_texts(&rt, b"", b"");
    host.put("a.exe", b"").expect(&rt, "put");
    host.fail_load(2).expect(&rt, "room");
    assert_eq!(rt; psxk(rt.alloc(), &WORDS, &mut host), 3);
}
