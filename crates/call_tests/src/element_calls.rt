//! The elements of the chains, whose functions interrupts call, in programs on the image.
use crate::timed::{runs_behind, times};
use psx_base::Out;
use std::process::Abort;

const LINE_0: &[u8] = b" line 0\n";

// Each row of `rows` is a chain and an element: the word for the next one, the second function and the first. They are put there in this order, and then an interrupt comes.
// `letter` writes r4 and keeps the rest but for r9 and r10.
const BEFORE: &[u8] = b"
start:  la      r16, rows
        li      r17, 5
more:   lw      r4, 0(r16)
        addiu   r5, r16, 4
        li      r9, 0x02                # SysEnqIntRP
        li      r10, 0xC0
        jalr    r31, r10
        nop
        addiu   r17, r17, -1
        bne     r17, r0, more
        addiu   r16, r16, 16
        li      r4, 3
        li      r9, 0x04                # enable_timer_irq
        li      r10, 0xB0
        jalr    r31, r10
        nop
        addiu   r2, r0, 0x12            # an interrupt comes here
        addiu   r4, r2, 0x34
        li      r9, 0x06                # exit
        li      r10, 0xA0
        jr      r10
        nop
letter: li      r9, 0x3C                # putchar
        li      r10, 0xA0
        jr      r10
        nop
first_7:
        jal     letter
        addiu   r4, r4, 'a'             # the argument is 0
        li      r31, 0xE0
        jr      r31
        li      r2, 7
first_9:
        jal     letter
        addiu   r4, r4, 'b'
        li      r31, 0xE0
        jr      r31
        li      r2, 9
first_0:
        jal     letter
        addiu   r4, r4, 'c'
        li      r31, 0xE0
        jr      r31
        li      r2, 0
second: jal     letter
        addiu   r4, r4, '0'             # the argument is the first one's answer
        li      r31, 0xE0
        jr      r31
        li      r2, 5
take:   li      r4, 3
        la      r5, rows
        addiu   r5, r5, 0x44            # the last row
        li      r9, 0x03                # SysDeqIntRP
        li      r10, 0xC0
        jalr    r31, r10
        nop
        jal     letter
        addiu   r4, r2, 'd'
        li      r31, 0xE0
        jr      r31
        li      r2, 0
        .align  4
";

// Five rows, with an interrupt behind the last return: what is written. One line is taken back, once.
fn writes<R: AllocGlobal + Abort>(rt: &R, rows: &[u8], tty: &[u8]) {
    let mut text = Vec::new(rt.alloc());
    text.extend_from_slice(BEFORE).expect(rt, "room");
    text.extend_from_slice(rows).expect(rt, "room");
    let host = runs_behind(rt, &text, 6, &[(0, LINE_0)], b" Exit 00000046\n");
    assert_eq!(rt; host.sent(Out::Tty), tty);
    let trace = host.sent(Out::Trace);
    assert_eq!(rt; times(trace, b" I 00000000\n"), 1);
    assert_eq!(rt; times(trace, b" 1F801070 FFFFFFFE\n"), 1);
}

// Each second function is called behind its own first one, with that one's answer. Of one chain the last element that was put there comes first.
#[test]
fn an_answer_is_given_to_its_own_second_function(rt: HostRuntime) {
    const ROWS: &[u8] = b"
rows:   .word   0 0 second first_7
        .word   0 0 second first_9
        .word   0 0 second first_0
        .word   0 0 second first_9
        .word   0 0 second first_7
";
    writes(&rt, ROWS, b"a7b9cb9a7");
}

// Without a first function the second isn't called, nor is one at 0, nor one behind the answer 0.
#[test]
fn functions_that_are_passed_over(rt: HostRuntime) {
    const ROWS: &[u8] = b"
rows:   .word   1 0 second 0
        .word   1 0 0 first_7
        .word   1 0 second first_0
        .word   1 0 0 0
        .word   1 0 second first_9
";
    writes(&rt, ROWS, b"b9ca");
}

// Chains 0 to 3 follow one another, whatever comes first.
#[test]
fn chains_come_in_their_order(rt: HostRuntime) {
    const ROWS: &[u8] = b"
rows:   .word   3 0 0 first_0
        .word   2 0 second first_9
        .word   0 0 second first_7
        .word   1 0 0 first_9
        .word   0 0 0 first_0
";
    writes(&rt, ROWS, b"ca7bb9c");
}

// The elements are those of the interrupt's begin: one that a function takes out is called all the same.
#[test]
fn an_element_that_a_function_takes_out_is_called(rt: HostRuntime) {
    const ROWS: &[u8] = b"
rows:   .word   0 0 0 take
        .word   1 0 second first_9
        .word   2 0 0 0
        .word   3 0 0 first_0
        .word   3 0 second first_7
";
    writes(&rt, ROWS, b"db9a7c");
}
