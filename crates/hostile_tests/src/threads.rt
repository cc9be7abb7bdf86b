//! A thread that begins where no program stands.
use crate::hosts::host_with_schedule;
use psx_base::{Out, Stop};
use psx_trace::{Item, Trace};
use psxk_run::psxk;
use test_hosts::RUN_WITH;

// OpenThread(0, 80010000h, 0), and ChangeThread to what it answers.
const WORDS: [u32; 11] = [
    0x2404_0000,
    0x3C05_8001,
    0x2406_0000,
    0x2409_000E,
    0x240A_00B0,
    0x0140_F809,
    0,
    0x0040_2021,
    0x2409_0010,
    0x0140_F809,
    0,
];

// It is taken up at 0 with the registers of a new thread, and then the guard stops it.
#[test]
fn a_thread_is_taken_up_at_0(rt: HostRuntime) {
    let mut host = host_with_schedule(&rt, &WORDS, b"");
    assert_eq!(rt; psxk(rt.alloc(), &RUN_WITH, &mut host), 1);
    let trace = host.sent(Out::Trace);
    assert!(rt; trace.len() < 0x1_0000_0000);
    let Ok(items) = Trace::read(rt.alloc(), trace) else {
        panic!(rt; "no items");
    };
    let [.., Item::X { pc, sr, regs, .. }, Item::S { stop, .. }] = items.as_slice() else {
        panic!(rt; "no return before the stop");
    };
    assert_eq!(rt; (*pc, *sr), (0, 0x401));
    assert_eq!(rt; (regs.0[28], regs.0[29]), (0x8001_0000, 0x8001_0000));
    assert_eq!(rt; *stop, Stop::UserFetch { at: 0 });
    assert_eq!(rt;
        host.sent(Out::Report),
        b"psxk: stopped UserFetch 00000000\n".as_slice()
    );
}
