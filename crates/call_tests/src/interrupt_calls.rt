//! Interrupts of programs on the image, by the lines that a schedule raises.
use crate::hosts::runs_to;
use crate::timed::{count_of, push_entry, runs_behind, times};
use psx_base::{MemoryHost, Out};
use std::process::Abort;
use test_hosts::stands_in;

const LINE_0: &[u8] = b" line 0\n";

const LINE_1: &[u8] = b" line 1\n";

// A part of a trace's text.
fn shows_part<R: AllocGlobal + Abort>(rt: &R, host: &MemoryHost, part: &[u8]) {
    assert!(rt; 0 < part.len());
    assert!(rt; stands_in(host.sent(Out::Trace), part), "{part:?}");
}

// The sum of the numbers below 100, behind enable_timer_irq(3).
const SUM: &[u8] = b"
start:  li      r4, 3
        li      r9, 0x04                # enable_timer_irq
        li      r10, 0xB0
        jalr    r31, r10
        nop
        addiu   r3, r0, 100
        addiu   r2, r0, 0
loop:   addiu   r3, r3, -1
        bne     r3, r0, loop
        addu    r2, r2, r3
        move    r4, r2
        li      r9, 0x06                # exit
        li      r10, 0xA0
        jr      r10
        nop
";

const SUMMED: &[u8] = b" Exit 00001356\n";

// In a delay slot the branch is the one that is entered from, and that is taken again. The line is taken back.
#[test]
fn an_interrupt_in_a_delay_slot(rt: HostRuntime) {
    let host = runs_behind(&rt, SUM, 1, &[(4, LINE_0)], SUMMED);
    shows_part(&rt, &host, b" 80000400 80010020 I 00000000\n");
    shows_part(&rt, &host, b" 1F801070 00000001\n");
    shows_part(&rt, &host, b" 1F801074 00000001\n");
    shows_part(&rt, &host, b" 1F801070 FFFFFFFE\n");
    shows_part(
        &rt,
        &host,
        b" 80010020 00000401 00000000 00000000 00000000 00000000 00000063 00000003 ",
    );
    shows_part(
        &rt,
        &host,
        b" 80010020 00000000 00000000 801FFF00 801FFF00 80010014\n",
    );
    assert_eq!(rt; times(host.sent(Out::Trace), b" I 00000000\n"), 1);
}

// A line that isn't enabled stays pending.
#[test]
fn another_line_is_not_looked_at(rt: HostRuntime) {
    let host = runs_behind(&rt, SUM, 1, &[(4, LINE_0), (4, LINE_1)], SUMMED);
    shows_part(&rt, &host, b" 1F801070 00000003\n");
    shows_part(&rt, &host, b" 1F801070 FFFFFFFE\n");
    assert_eq!(rt; times(host.sent(Out::Trace), b" I 00000000\n"), 1);
    assert_eq!(rt; times(host.sent(Out::Trace), b" 1F801070 FFFFFFF"), 1);
}

// Wherever it comes in 200 steps that follow one another, the sum is the same.
#[test]
fn an_interrupt_at_each_step(rt: HostRuntime) {
    let first = runs_to(&rt, SUM, b"", SUMMED);
    let from = count_of(first.sent(Out::Trace), b'X', 1);
    for behind in 0..200u64 {
        let mut schedule = Vec::new(rt.alloc());
        push_entry(&rt, &mut schedule, from.wrapping_add(behind), LINE_0);
        let host = runs_to(&rt, SUM, &schedule, SUMMED);
        assert_eq!(rt; times(host.sent(Out::Trace), b" I 00000000\n"), 1);
    }
}

// At a gate before its word runs: the call is entered behind the return.
#[test]
fn an_interrupt_at_a_gate(rt: HostRuntime) {
    const TEXT: &[u8] = b"
start:  li      r4, 3
        li      r9, 0x04                # enable_timer_irq
        li      r10, 0xB0
        jalr    r31, r10
        nop
        li      r4, 'A'
        li      r9, 0x3C                # putchar
        li      r10, 0xA0
        jalr    r31, r10
        nop
        li      r4, 0
        li      r9, 0x06                # exit
        jr      r10
        nop
";
    let host = runs_behind(&rt, TEXT, 1, &[(5, LINE_0)], b" Exit 00000000\n");
    let trace = host.sent(Out::Trace);
    assert_eq!(rt; host.sent(Out::Tty), b"A".as_slice());
    shows_part(&rt, &host, b" 00000400 000000A0 I 00000000\n");
    shows_part(&rt, &host, b" 000000A0 00000401 ");
    assert_eq!(rt;
        count_of(trace, b'E', 2),
        count_of(trace, b'X', 1).wrapping_add(5)
    );
    assert_eq!(rt; count_of(trace, b'E', 3), count_of(trace, b'X', 2));
}

// A load that is pending is done before the interrupt: it stands in the shown registers, and the instruction behind it sees it.
#[test]
fn a_pending_load_is_kept(rt: HostRuntime) {
    const TEXT: &[u8] = b"
start:  la      r3, seven
        li      r4, 3
        li      r9, 0x04                # enable_timer_irq
        li      r10, 0xB0
        jalr    r31, r10
        nop
        addiu   r2, r0, 1
        lw      r2, 0(r3)
        addu    r4, r2, r0
        addu    r5, r2, r0
        sll     r4, r4, 4
        or      r4, r4, r5
        li      r9, 0x06                # exit
        li      r10, 0xA0
        jr      r10
        nop
seven:  .word   7
";
    let first = runs_to(&rt, TEXT, b"", b" Exit 00000017\n");
    let from = count_of(first.sent(Out::Trace), b'X', 1);
    let mut schedule = Vec::new(rt.alloc());
    push_entry(&rt, &mut schedule, from.wrapping_add(2), LINE_0);
    let host = runs_to(&rt, TEXT, &schedule, b" Exit 00000077\n");
    shows_part(
        &rt,
        &host,
        b" 00000401 00000000 00000000 00000000 00000007 ",
    );
}

// Two lines while interrupts are off: one interrupt, at the step behind the SYSCALL that turns them on.
#[test]
fn an_interrupt_waits_for_a_critical_section_to_end(rt: HostRuntime) {
    const TEXT: &[u8] = b"
start:  li      r4, 3
        li      r9, 0x04                # enable_timer_irq
        li      r10, 0xB0
        jalr    r31, r10
        nop
        li      r4, 1
        syscall                         # EnterCriticalSection
        addu    r16, r2, r2
        syscall
        addu    r16, r16, r2            # 2: on, and then off
        nop
        nop
        nop
        li      r4, 2
        syscall                         # ExitCriticalSection
        move    r4, r16
        li      r9, 0x06                # exit
        li      r10, 0xA0
        jr      r10
        nop
";
    let host = runs_behind(
        &rt,
        TEXT,
        3,
        &[(1, LINE_0), (2, LINE_0)],
        b" Exit 00000002\n",
    );
    let trace = host.sent(Out::Trace);
    assert_eq!(rt; times(trace, b" I 00000000\n"), 1);
    assert_eq!(rt; count_of(trace, b'E', 5), count_of(trace, b'X', 4));
    shows_part(&rt, &host, b" 00000400 ");
}

// A vertical blank makes an event ready for which a call waits. Between are its tries, which go back to the gate.
#[test]
fn a_vertical_blank_ends_a_wait(rt: HostRuntime) {
    const TEXT: &[u8] = b"
start:  li      r4, 0xF2000003
        li      r5, 2
        li      r6, 0x2000
        li      r7, 0
        li      r9, 0x08                # OpenEvent
        li      r10, 0xB0
        jalr    r31, r10
        nop
        move    r16, r2
        move    r4, r16
        li      r9, 0x0C                # EnableEvent
        jalr    r31, r10
        nop
        li      r4, 3
        li      r9, 0x04                # enable_timer_irq
        jalr    r31, r10
        nop
        move    r4, r16
        li      r9, 0x0A                # WaitEvent
        jalr    r31, r10
        nop
        move    r17, r2
        move    r4, r16
        li      r9, 0x0B                # TestEvent
        jalr    r31, r10
        nop
        move    r6, r2
        move    r5, r17
        la      r4, format
        li      r9, 0x3F                # printf
        li      r10, 0xA0
        jalr    r31, r10
        nop
        li      r4, 0
        li      r9, 0x06                # exit
        jr      r10
        nop
format: .asciiz \"%d %d\"
";
    let host = runs_to(&rt, TEXT, b"138941 line 0\n", b" Exit 00000000\n");
    assert_eq!(rt; host.sent(Out::Tty), b"1 0".as_slice());
    shows_part(&rt, &host, b" 000000B0 00000401 ");
    assert!(rt; times(host.sent(Out::Trace), b" 000000B0 00000401 ") > 100);
}
