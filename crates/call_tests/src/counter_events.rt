//! Events of the root counters, in each mode of a counter that init_timer can set, in programs on the image.
use crate::hosts::runs_to;
use crate::timed::times;
use psx_base::{MemoryHost, Out};
use std::process::Abort;

// A counter's number is in r16, its target in r5 and its flags in r6. It opens an event of the counter's class whose mode is in r17 and whose function adds 1 to a word, and begins the counter.
const BEFORE: &[u8] = b"
        move    r20, r5
        move    r21, r6
        li      r8, 0xF2000000
        addu    r4, r8, r16
        li      r5, 2
        move    r6, r17
        la      r7, function
        li      r9, 0x08                # OpenEvent
        li      r10, 0xB0
        jalr    r31, r10
        nop
        move    r18, r2
        move    r4, r2
        li      r9, 0x0C                # EnableEvent
        jalr    r31, r10
        nop
        move    r4, r16
        li      r9, 0x04                # enable_timer_irq
        jalr    r31, r10
        nop
        move    r4, r16
        move    r5, r20
        move    r6, r21
        li      r9, 0x02                # init_timer
        jalr    r31, r10
        nop
";

// It waits until the event is ready three times, and ends with the sum of WaitEvent's answers.
const WAITS: &[u8] = b"
        li      r19, 3
        li      r22, 0
wait:   move    r4, r18
        li      r9, 0x0A                # WaitEvent
        jalr    r31, r10
        nop
        addu    r22, r22, r2
        addiu   r19, r19, -1
        bne     r19, r0, wait
        nop
        move    r4, r22
";

// It waits until the function was called three times, and ends with TestEvent's answer and that number.
const CALLED: &[u8] = b"
        la      r19, word
        li      r22, 3
wait:   lw      r8, 0(r19)
        nop
        bne     r8, r22, wait
        nop
        move    r4, r18
        li      r9, 0x0B                # TestEvent
        jalr    r31, r10
        nop
        sll     r4, r2, 8
        or      r4, r4, r22
";

// It makes 20,000 turns, and ends with TestEvent's answer.
const TURNS: &[u8] = b"
        li      r19, 20000
turn:   addiu   r19, r19, -1
        bne     r19, r0, turn
        nop
        move    r4, r18
        li      r9, 0x0B                # TestEvent
        jalr    r31, r10
        nop
        move    r4, r2
";

const BEHIND: &[u8] = b"
        li      r9, 0x06                # exit
        li      r10, 0xA0
        jr      r10
        nop
function:
        la      r8, word
        lw      r9, 0(r8)
        nop
        addiu   r9, r9, 1
        jr      r31
        sw      r9, 0(r8)
        .align  4
word:   .word   0
";

// A run of these parts up to a stop: the host behind it.
fn ran<R: AllocGlobal + Abort>(rt: &R, head: &[u8], waits: &[u8], stop: &[u8]) -> MemoryHost {
    let mut text = Vec::new(rt.alloc());
    for part in [head, BEFORE, waits, BEHIND] {
        text.extend_from_slice(part).expect(rt, "room");
    }
    runs_to(rt, &text, b"", stop)
}

// The line of a counter is taken back so often at least, and no other line.
fn takes_back<R: AllocGlobal + Abort>(rt: &R, host: &MemoryHost, written: &[u8], least: usize) {
    let trace = host.sent(Out::Trace);
    let interrupts = times(trace, b" I 00000000\n");
    assert!(rt; interrupts >= least);
    assert_eq!(rt; times(trace, written), interrupts);
}

// An interrupt at the target, by each counter's plain clock: each time the event is waited for it becomes ready again.
#[test]
fn each_counter_ends_a_wait(rt: HostRuntime) {
    for (head, written) in [
        (
            b"start:  li r16, 0\n li r17, 0x2000\n li r5, 5000\n li r6, 0x1001\n".as_slice(),
            b" 1F801070 FFFFFFEF\n".as_slice(),
        ),
        (
            b"start:  li r16, 1\n li r17, 0x2000\n li r5, 5000\n li r6, 0x1001\n".as_slice(),
            b" 1F801070 FFFFFFDF\n".as_slice(),
        ),
        (
            b"start:  li r16, 2\n li r17, 0x2000\n li r5, 5000\n li r6, 0x1001\n".as_slice(),
            b" 1F801070 FFFFFFBF\n".as_slice(),
        ),
    ] {
        let host = ran(&rt, head, WAITS, b" Exit 00000003\n");
        takes_back(&rt, &host, written, 3);
    }
}

// By the other clock, which has 8 steps for counter 0, 2,048 for counter 1, and one for counter 2.
#[test]
fn each_counter_ends_a_wait_by_its_other_clock(rt: HostRuntime) {
    for (head, written) in [
        (
            b"start:  li r16, 0\n li r17, 0x2000\n li r5, 600\n li r6, 0x1000\n".as_slice(),
            b" 1F801070 FFFFFFEF\n".as_slice(),
        ),
        (
            b"start:  li r16, 1\n li r17, 0x2000\n li r5, 2\n li r6, 0x1000\n".as_slice(),
            b" 1F801070 FFFFFFDF\n".as_slice(),
        ),
        (
            b"start:  li r16, 2\n li r17, 0x2000\n li r5, 5000\n li r6, 0x1000\n".as_slice(),
            b" 1F801070 FFFFFFBF\n".as_slice(),
        ),
    ] {
        let host = ran(&rt, head, WAITS, b" Exit 00000003\n");
        takes_back(&rt, &host, written, 3);
    }
}

// An event with a function stays busy. Flag 4 makes no difference to the interrupt.
#[test]
fn each_counter_calls_a_function(rt: HostRuntime) {
    for (head, written) in [
        (
            b"start:  li r16, 0\n li r17, 0x1000\n li r5, 5000\n li r6, 0x1001\n".as_slice(),
            b" 1F801070 FFFFFFEF\n".as_slice(),
        ),
        (
            b"start:  li r16, 1\n li r17, 0x1000\n li r5, 5000\n li r6, 0x1011\n".as_slice(),
            b" 1F801070 FFFFFFDF\n".as_slice(),
        ),
        (
            b"start:  li r16, 2\n li r17, 0x1000\n li r5, 5000\n li r6, 0x1010\n".as_slice(),
            b" 1F801070 FFFFFFBF\n".as_slice(),
        ),
    ] {
        let host = ran(&rt, head, CALLED, b" Exit 00000003\n");
        takes_back(&rt, &host, written, 3);
    }
}

// Without flag 12 the counter passes its target and no interrupt comes; nor does an event of another mode become ready by one.
#[test]
fn an_event_stays_busy(rt: HostRuntime) {
    for head in [
        b"start:  li r16, 0\n li r17, 0x2000\n li r5, 5000\n li r6, 1\n".as_slice(),
        b"start:  li r16, 1\n li r17, 0x2000\n li r5, 5000\n li r6, 0x11\n".as_slice(),
        b"start:  li r16, 2\n li r17, 0x2000\n li r5, 5000\n li r6, 0\n".as_slice(),
    ] {
        let host = ran(&rt, head, TURNS, b" Exit 00000000\n");
        assert_eq!(rt; times(host.sent(Out::Trace), b" I 00000000\n"), 0);
    }
    let host = ran(
        &rt,
        b"start:  li r16, 2\n li r17, 0x3000\n li r5, 20000\n li r6, 0x1001\n",
        TURNS,
        b" Exit 00000000\n",
    );
    takes_back(&rt, &host, b" 1F801070 FFFFFFBF\n", 2);
}
