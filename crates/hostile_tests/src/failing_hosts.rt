//! A run over hosts whose loads and sends fail, one after the other.
use crate::hosts::host_with_schedule;
use psx_base::{MemoryHost, Out};
use psxk_run::psxk;
use std::ops::Range;
use std::process::Abort;
use test_hosts::RUN_WITH;

// getchar, which waits for a byte; putchar of it; exit with 0.
const ECHO: [u32; 11] = [
    0x2409_003B,
    0x240A_00A0,
    0x0140_F809,
    0,
    0x2409_003C,
    0x0140_F809,
    0x0040_2021,
    0x2404_0000,
    0x2409_0006,
    0x0140_0008,
    0,
];

// The byte comes 5,000 steps behind the program's begin.
const BYTE: &[u8] = b"43941 byte 41\n";

fn echo<R: AllocGlobal + Abort>(rt: &R) -> MemoryHost {
    host_with_schedule(rt, &ECHO, BYTE)
}

// The host behind a run that doesn't fail.
fn whole<R: AllocGlobal + Abort>(rt: &R) -> MemoryHost {
    let mut host = echo(rt);
    assert_eq!(rt; psxk(rt.alloc(), &RUN_WITH, &mut host), 0);
    assert_eq!(rt; host.sent(Out::Tty), b"A".as_slice());
    assert!(rt; host.sent(Out::Trace).ends_with(b" Exit 00000000\n"));
    assert_eq!(rt; host.sent(Out::Ram).len(), 2_098_176);
    assert_eq!(rt; host.sent(Out::Report), b"".as_slice());
    host
}

// How many bytes a host was sent in all.
fn arrived(host: &MemoryHost) -> usize {
    let mut count = 0usize;
    for out in [Out::Tty, Out::Trace, Out::Ram, Out::Report] {
        count = count.wrapping_add(host.sent(out).len());
    }
    count
}

// Each output has a front of its text, the memory a byte only where both texts are whole, and the report none.
fn is_in_part(host: &MemoryHost, whole: &MemoryHost) -> bool {
    let mut texts_are_whole = true;
    for out in [Out::Tty, Out::Trace] {
        if !whole.sent(out).starts_with(host.sent(out)) {
            return false;
        }
        texts_are_whole = texts_are_whole && whole.sent(out) == host.sent(out);
    }
    let ram = host.sent(Out::Ram);
    whole.sent(Out::Ram).starts_with(ram)
        && (ram.is_empty() || texts_are_whole)
        && host.sent(Out::Report).is_empty()
}

// A run whose send of this number fails after so many bytes: how many bytes arrived in all.
fn arrived_but<R: AllocGlobal + Abort>(
    rt: &R,
    whole: &MemoryHost,
    call: u64,
    after: usize,
) -> usize {
    let mut host = echo(rt);
    host.fail_send(call, after).expect(rt, "room");
    let status = psxk(rt.alloc(), &RUN_WITH, &mut host);
    let failed = host.send_faults() > 0;
    assert_eq!(rt; status, if failed { 6 } else { 0 }, "{call} {after}");
    assert!(rt; is_in_part(&host, whole), "{call} {after}");
    arrived(&host)
}

// The sends of these numbers fail, once after no byte and once after one. What arrives grows from send to send: how many bytes with the last.
fn fails_in_turn<R: AllocGlobal + Abort>(
    rt: &R,
    whole: &MemoryHost,
    calls: Range<u64>,
    before: usize,
) -> usize {
    let all = arrived(whole);
    let mut before = before;
    for call in calls {
        let none = arrived_but(rt, whole, call, 0);
        let one = arrived_but(rt, whole, call, 1);
        assert!(rt; before <= none, "{call}");
        assert_eq!(rt; one, none.wrapping_add(1).min(all), "{call}");
        before = one;
    }
    before
}

#[test]
fn each_send_fails_in_turn(rt: HostRuntime) {
    let whole = whole(&rt);
    assert_eq!(rt; arrived_but(&rt, &whole, 1, 0), 0);
    let _first = fails_in_turn(&rt, &whole, 1..7, 0);
}

// The run makes fewer than twelve sends, so that all arrives in the end.
#[test]
fn each_later_send_fails_in_turn(rt: HostRuntime) {
    let whole = whole(&rt);
    let last = fails_in_turn(&rt, &whole, 7..13, 0);
    assert_eq!(rt; last, arrived(&whole));
}

// The first load is the program's, and the second the schedule's. The report is all that is sent, and where its own send fails the status is 6.
#[test]
fn each_load_fails_in_turn(rt: HostRuntime) {
    for (load, report) in [
        (1, b"psxk: read a.exe\n".as_slice()),
        (2, b"psxk: read s\n"),
    ] {
        let mut host = echo(&rt);
        host.fail_load(load).expect(&rt, "room");
        assert_eq!(rt; psxk(rt.alloc(), &RUN_WITH, &mut host), 5);
        assert_eq!(rt; host.sent(Out::Report), report);
        assert_eq!(rt; arrived(&host), report.len());
        for after in 0..2usize {
            let mut host = echo(&rt);
            host.fail_load(load).expect(&rt, "room");
            host.fail_send(1, after).expect(&rt, "room");
            assert_eq!(rt; psxk(rt.alloc(), &RUN_WITH, &mut host), 6);
            assert!(rt; report.starts_with(host.sent(Out::Report)));
            assert_eq!(rt; host.sent(Out::Report).len(), after);
            assert_eq!(rt; arrived(&host), after);
        }
    }
}

// The run makes two loads.
#[test]
fn a_third_load_that_fails_changes_nothing(rt: HostRuntime) {
    let whole = whole(&rt);
    let mut host = echo(&rt);
    host.fail_load(3).expect(&rt, "room");
    assert_eq!(rt; psxk(rt.alloc(), &RUN_WITH, &mut host), 0);
    assert_eq!(rt; host.load_faults(), 0);
    assert!(rt; is_in_part(&host, &whole));
    assert_eq!(rt; arrived(&host), arrived(&whole));
}
