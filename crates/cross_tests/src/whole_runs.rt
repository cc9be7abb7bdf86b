//! Whole runs of programs over hosts in memory. The expected counts are those of the image's words, counted by hand.
use crate::hosts::{host_of, program};
use psx_base::Out;
use psxk_run::psxk;
use std::process::Abort;
use test_hosts::{HELLO, HELLO_TRACE, RUN};

#[test]
fn prints_a_letter_and_exits(rt: HostRuntime) {
    let mut host = host_of(&rt, &program(&rt, &HELLO));
    assert_eq!(rt; psxk(rt.alloc(), &RUN, &mut host), 0);
    assert_eq!(rt; host.sent(Out::Tty), b"A".as_slice());
    assert_eq!(rt; host.sent(Out::Trace), HELLO_TRACE);
    assert_eq!(rt; host.sent(Out::Ram).len(), 2_098_176);
    assert_eq!(rt; host.sent(Out::Report), b"".as_slice());
}

#[test]
fn ends_by_its_budget(rt: HostRuntime) {
    let mut host = host_of(&rt, &program(&rt, &HELLO));
    assert_eq!(rt; psxk(rt.alloc(), &["run", "a.exe", "-", "1"], &mut host), 0);
    assert_eq!(rt; host.sent(Out::Tty), b"".as_slice());
    assert_eq!(rt; host.sent(Out::Trace), b"S 1 Budget\n".as_slice());
}

// A program's status and the end of its trace and report.
fn stops<R: AllocGlobal + Abort>(rt: &R, words: &[u32], status: u8, stop: &[u8]) {
    let mut host = host_of(rt, &program(rt, words));
    assert_eq!(rt; psxk(rt.alloc(), &RUN, &mut host), status, "{stop:?}");
    assert!(rt; host.sent(Out::Trace).ends_with(stop), "{stop:?}");
    assert!(rt;
        status == 0 || host.sent(Out::Report).ends_with(stop),
        "{stop:?}"
    );
}

#[test]
fn names_what_the_kernel_does_not_serve(rt: HostRuntime) {
    stops(
        &rt,
        &[0x2409_0031, 0x240A_00A0, 0x0140_F809, 0],
        1,
        b" Unserved A 00000031 80010010\n",
    );
    stops(
        &rt,
        &[0x3C09_1000, 0x3529_003C, 0x240A_00A0, 0x0140_F809, 0],
        1,
        b" Unserved A 1000003C 80010014\n",
    );
    stops(
        &rt,
        &[0x2409_0001, 0x240A_00B0, 0x0140_0008, 0],
        1,
        b" Unserved B 00000001 000000D0\n",
    );
    stops(
        &rt,
        &[0x2409_0005, 0x240A_00C0, 0x0140_0008, 0],
        1,
        b" Unserved C 00000005 000000D0\n",
    );
    stops(
        &rt,
        &[0x2404_0003, 0x0000_000C],
        1,
        b" Unserved Y 00000003 80010004\n",
    );
    stops(
        &rt,
        &[0x240A_00E0, 0x0140_0008, 0],
        1,
        b" BadReturn 000000D0\n",
    );
    stops(&rt, &[0x2402_0007, 0x03E0_0008, 0], 0, b" Exit 00000007\n");
}

#[test]
fn names_what_the_guard_bars(rt: HostRuntime) {
    stops(&rt, &[0x8C02_0000], 1, b" UserData 80010000 00000000\n");
    stops(&rt, &[0x0800_0020, 0], 1, b" UserFetch 80000080\n");
    stops(&rt, &[0x4002_6000], 1, b" Protected 80010000\n");
    stops(
        &rt,
        &[0x0800_4000, 0x0800_4000],
        1,
        b" SlotBranch 80010004\n",
    );
    stops(
        &rt,
        &[0x3C03_8000, 0x8C62_0102],
        1,
        b" Exception 00000004 80010004\n",
    );
    stops(&rt, &[0x0000_000D], 1, b" Exception 00000009 80010000\n");
    stops(
        &rt,
        &[0x0800_4000, 0x0000_000C],
        1,
        b" Exception 00000008 80010000\n",
    );
    stops(
        &rt,
        &[0x3C08_8000, 0x0108_4020],
        1,
        b" Exception 0000000C 80010004\n",
    );
    stops(&rt, &[0x4800_0000], 1, b" Exception 0000000B 80010000\n");
    stops(&rt, &[0x0000_0048], 1, b" Exception 0000000A 80010000\n");
}

// The front of a program's trace.
fn traces<R: AllocGlobal + Abort>(rt: &R, words: &[u32], front: &[u8]) {
    let mut host = host_of(rt, &program(rt, words));
    assert_eq!(rt; psxk(rt.alloc(), &RUN, &mut host), 1, "{front:?}");
    assert!(rt; host.sent(Out::Trace).starts_with(front), "{front:?}");
}

#[test]
fn shows_entries_and_stops(rt: HostRuntime) {
    traces(
        &rt,
        &[0x3C03_8000, 0x8C62_0102],
        b"B 38941\nE 38942 00000010 80010004 T 00000004\nS ",
    );
    traces(
        &rt,
        &[0x0000_000D],
        b"B 38941\nE 38941 00000024 80010000 T 00000009\nS ",
    );
    traces(
        &rt,
        &[0x2409_0031, 0x240A_00A0, 0x0140_F809, 0],
        b"B 38941\nE 38945 00000020 000000A0 A 00000031\nS ",
    );
    traces(
        &rt,
        &[0x8C02_0000],
        b"B 38941\nS 38941 UserData 80010000 00000000\n",
    );
    traces(
        &rt,
        &[0x0800_0020, 0],
        b"B 38941\nS 38943 UserFetch 80000080\n",
    );
    traces(
        &rt,
        &[0x4002_6000],
        b"B 38941\nS 38941 Protected 80010000\n",
    );
    traces(
        &rt,
        &[0x0800_4000, 0x0800_4000],
        b"B 38941\nS 38942 SlotBranch 80010004\n",
    );
}

// Divides the words of r8 by that of r9, and exits with the quotient, then with the remainder.
fn divides<R: AllocGlobal + Abort>(rt: &R, divide: u32, numbers: [u32; 2], results: [&[u8]; 2]) {
    let [left, right] = numbers;
    let [quotient, remainder] = results;
    let set = [
        0x3C08_0000 | left >> 16,
        0x3508_0000 | left & 0xFFFF,
        0x3C09_0000 | right >> 16,
        0x3529_0000 | right & 0xFFFF,
        divide,
    ];
    let [a, b, c, d, e] = set;
    stops(
        rt,
        &[
            a,
            b,
            c,
            d,
            e,
            0x0000_2012,
            0x2409_0006,
            0x240A_00A0,
            0x0140_0008,
            0,
        ],
        0,
        quotient,
    );
    stops(
        rt,
        &[
            a,
            b,
            c,
            d,
            e,
            0x0000_2010,
            0x2409_0006,
            0x240A_00A0,
            0x0140_0008,
            0,
        ],
        0,
        remainder,
    );
}

#[test]
fn divides_as_the_processor_does(rt: HostRuntime) {
    let signed = 0x0109_001A;
    let unsigned = 0x0109_001B;
    divides(
        &rt,
        unsigned,
        [7, 0],
        [b" Exit FFFFFFFF\n", b" Exit 00000007\n"],
    );
    divides(
        &rt,
        signed,
        [7, 0],
        [b" Exit FFFFFFFF\n", b" Exit 00000007\n"],
    );
    divides(
        &rt,
        signed,
        [0xFFFF_FFF9, 0],
        [b" Exit 00000001\n", b" Exit FFFFFFF9\n"],
    );
    divides(
        &rt,
        signed,
        [0x8000_0000, 0xFFFF_FFFF],
        [b" Exit 80000000\n", b" Exit 00000000\n"],
    );
}

#[test]
fn computes_as_the_processor_does(rt: HostRuntime) {
    // LWR and LWL read an unaligned word.
    stops(
        &rt,
        &[
            0x3C08_8001,
            0x2508_0020,
            0x9904_0001,
            0x8904_0004,
            0x2409_0006,
            0x240A_00A0,
            0x0140_0008,
            0,
            0x4433_2211,
            0x8877_6655,
        ],
        0,
        b" Exit 55443322\n",
    );

    // The instruction after a load sees the old register.
    stops(
        &rt,
        &[
            0x3C03_8001,
            0x2463_0030,
            0x2402_0001,
            0x8C62_0000,
            0x0040_2021,
            0x0040_2821,
            0x0004_2100,
            0x0085_2025,
            0x2409_0006,
            0x240A_00A0,
            0x0140_0008,
            0,
            7,
        ],
        0,
        b" Exit 00000017\n",
    );
}

#[test]
fn enters_by_a_gate_in_another_segment(rt: HostRuntime) {
    let words = [
        0x3C0A_A000,
        0x354A_00A0,
        0x2404_0041,
        0x2409_003C,
        0x0140_0008,
        0,
    ];
    let mut host = host_of(&rt, &program(&rt, &words));
    assert_eq!(rt; psxk(rt.alloc(), &RUN, &mut host), 0);
    assert_eq!(rt; host.sent(Out::Tty), b"A".as_slice());
    assert!(rt;
        host.sent(Out::Trace)
            .starts_with(b"B 38941\nE 38947 00000020 A00000A0 A 0000003C\n")
    );
    assert!(rt; host.sent(Out::Trace).ends_with(b" Exit 00000041\n"));
}

#[test]
fn runs_to_the_end_of_user_memory(rt: HostRuntime) {
    let mut host = host_of(&rt, &program(&rt, &[]));
    assert_eq!(rt; psxk(rt.alloc(), &RUN, &mut host), 1);
    assert_eq!(rt;
        host.sent(Out::Trace),
        b"B 38941\nS 546845 UserFetch 80200000\n".as_slice()
    );
    assert_eq!(rt;
        host.sent(Out::Report),
        b"psxk: stopped UserFetch 80200000\n".as_slice()
    );
}
