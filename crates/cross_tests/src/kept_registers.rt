//! What a call leaves of a program's registers, and what the SYSCALLs do with the interrupts' mask.
ghost use Rattle.std.specs.Prelude.{◌<◌, length};

use crate::hosts::{host_of, program};
use psx_base::Out;
use psxk_run::psxk;
use std::process::Abort;
use test_hosts::RUN;

// A program's trace has these bytes.
fn trace_has<R: AllocGlobal + Abort>(rt: &R, words: &[u32], part: &[u8])
    requires { 0 < length part.now }
{
    let mut host = host_of(rt, &program(rt, words));
    let _status = psxk(rt.alloc(), &RUN, &mut host);
    let trace = host.sent(Out::Trace);
    assert!(rt; trace.windows(part.len()).any(|window| window == part));
}

// hi and lo, r1 to r25 and r28 to r30 with a value of their own, then `A3C(41h)`.
const VALUES: [u32; 34] = [
    0x2401_7001,
    0x0020_0011,
    0x2401_7002,
    0x0020_0013,
    0x2401_0101,
    0x2402_0102,
    0x2403_0103,
    0x2404_0041,
    0x2405_0105,
    0x2406_0106,
    0x2407_0107,
    0x2408_0108,
    0x2409_003C,
    0x240A_00A0,
    0x240B_010B,
    0x240C_010C,
    0x240D_010D,
    0x240E_010E,
    0x240F_010F,
    0x2410_0110,
    0x2411_0111,
    0x2412_0112,
    0x2413_0113,
    0x2414_0114,
    0x2415_0115,
    0x2416_0116,
    0x2417_0117,
    0x2418_0118,
    0x2419_0119,
    0x241C_011C,
    0x241D_011D,
    0x241E_011E,
    0x0140_F809,
    0x0000_0000,
];

#[test]
fn keeps_the_registers_over_a_call(rt: HostRuntime) {
    const TEXT: &[u8] =
        b" 80010088 00000401 00007001 00007002 00000101 00000041 00000103 00000041 00000105 00000106 00000107 00000108 0000003C 000000A0 0000010B 0000010C 0000010D 0000010E 0000010F 00000110 00000111 00000112 00000113 00000114 00000115 00000116 00000117 00000118 00000119 80010088 00000000 0000011C 0000011D 0000011E 80010088\n";
    trace_has(&rt, &VALUES, TEXT);
}

#[test]
fn turns_interrupts_off_once(rt: HostRuntime) {
    // SYSCALL with r4 1 twice, and then with 2
    let words = [
        0x2404_0001,
        0x0000_000C,
        0x0000_000C,
        0x2404_0002,
        0x0000_000C,
        0x0000_000D,
    ];
    trace_has(
        &rt,
        &words,
        b" 80010008 00000400 00000000 00000000 00000000 00000001 00000000 00000001 ",
    );
    trace_has(
        &rt,
        &words,
        b" 8001000C 00000400 00000000 00000000 00000000 00000000 00000000 00000001 ",
    );
    trace_has(&rt, &words, b" 80010014 00000401 ");
}
