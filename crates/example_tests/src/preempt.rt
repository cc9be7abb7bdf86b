//! Written by examples/as_tests.sh from the files of examples/.
use crate::hosts::shows_with;

const TEXT: &[u8] =
    b"# Two threads that a vertical blank preempts: its event's function names the other thread, which runs when the function has returned. The schedule raises the line six times.
# Neither thread calls ChangeThread. Each writes its letter when it finds that it is taken up again, and keeps what it knows in its registers.

.equ GATE_A        0xA0
.equ GATE_B        0xB0
.equ EXIT          0x06
.equ PUTCHAR       0x3C
.equ ENABLE_IRQ    0x04
.equ OPEN_EVENT    0x08
.equ ENABLE_EVENT  0x0C
.equ OPEN_THREAD   0x0E
.equ CHANGE_THREAD 0x10
.equ BLANK         0xF2000003           # the class of a vertical blank's events
.equ ON_INTERRUPT  2                    # their spec
.equ CALL          0x1000               # the event's function is called
.equ THREADS       0xFF000000           # the handle of thread 0
.equ LAST          6                    # how many turns there are

start:
        li      r10, GATE_B
        la      r4, second
        li      r5, 0x80110000          # its stack
        li      r6, 0
        jalr    r31, r10
        li      r9, OPEN_THREAD         # in the slot of the jump: thread 1
        li      r4, BLANK
        li      r5, ON_INTERRUPT
        li      r6, CALL
        la      r7, blank
        jalr    r31, r10
        li      r9, OPEN_EVENT
        move    r4, r2
        jalr    r31, r10
        li      r9, ENABLE_EVENT
        li      r4, 3                   # VBLANK
        jalr    r31, r10
        li      r9, ENABLE_IRQ
        li      r16, 0                  # the turn that this thread knows of
        li      r17, 'A'
        j       wait
        nop
second:
        li      r16, 0
        li      r17, 'B'
wait:
        la      r18, turn
        lw      r8, 0(r18)
        nop
        beq     r8, r16, wait
        nop
        move    r16, r8
        li      r10, GATE_A
        move    r4, r17
        jalr    r31, r10
        li      r9, PUTCHAR
        li      r8, LAST
        bne     r16, r8, wait
        nop
        li      r4, 10
        jalr    r31, r10
        li      r9, PUTCHAR
        li      r4, 0
        jr      r10
        li      r9, EXIT

# The turns are counted, and an odd one is thread 1's.
blank:
        la      r8, turn
        lw      r9, 0(r8)
        nop
        addiu   r9, r9, 1
        sw      r9, 0(r8)
        andi    r9, r9, 1
        li      r4, THREADS
        addu    r4, r4, r9
        li      r10, GATE_B
        jalr    r31, r10
        li      r9, CHANGE_THREAD
        li      r31, 0xE0               # where a function returns to
        jr      r31
        nop

        .align  4
turn:   .word   0
";

const SCHEDULE: &[u8] = b"60000 line 0
80000 line 0
100000 line 0
120000 line 0
140000 line 0
160000 line 0
";

const OUTPUT: &[u8] = b"BABABA
";

const STOP: &[u8] = b" Exit 00000000
";

#[test]
fn preempt(rt: HostRuntime) {
    shows_with(&rt, TEXT, SCHEDULE, OUTPUT, STOP);
}
