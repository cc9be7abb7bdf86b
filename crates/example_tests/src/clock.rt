//! Written by examples/as_tests.sh from the files of examples/.
use crate::hosts::shows;

const TEXT: &[u8] =
    b"# A clock: root counter 2 comes to its target at each 20,000 steps, and the function of its event counts the ticks. The program waits for five of them and prints each.

.equ GATE_A        0xA0
.equ GATE_B        0xB0
.equ EXIT          0x06
.equ PRINTF        0x3F
.equ INIT_TIMER    0x02
.equ ENABLE_IRQ    0x04
.equ OPEN_EVENT    0x08
.equ ENABLE_EVENT  0x0C
.equ COUNTER_2     0xF2000002           # the class of its events
.equ ON_INTERRUPT  2                    # their spec
.equ CALL          0x1000               # the event's function is called
.equ FLAGS         0x1001               # an interrupt at the target, by the system clock
.equ STEPS         20000

start:
        li      r10, GATE_B
        li      r4, COUNTER_2
        li      r5, ON_INTERRUPT
        li      r6, CALL
        la      r7, tick
        jalr    r31, r10
        li      r9, OPEN_EVENT          # in the slot of the jump
        move    r4, r2
        jalr    r31, r10
        li      r9, ENABLE_EVENT
        li      r4, 2
        li      r5, STEPS
        li      r6, FLAGS
        jalr    r31, r10
        li      r9, INIT_TIMER
        li      r4, 2
        jalr    r31, r10
        li      r9, ENABLE_IRQ
        la      r16, ticks
        li      r17, 0                  # what was printed last
        li      r18, 5
        li      r10, GATE_A
wait:
        lw      r8, 0(r16)
        nop
        beq     r8, r17, wait
        nop
        move    r17, r8
        la      r4, line
        move    r5, r17
        jalr    r31, r10
        li      r9, PRINTF
        bne     r17, r18, wait
        nop
        li      r4, 0
        jr      r10
        li      r9, EXIT

# It has its own registers. r31 is the gate to which it returns.
tick:
        la      r8, ticks
        lw      r9, 0(r8)
        nop
        addiu   r9, r9, 1
        jr      r31
        sw      r9, 0(r8)

        .align  4
ticks:  .word   0
line:   .asciiz \"tick %d\\n\"
";

const OUTPUT: &[u8] = b"tick 1
tick 2
tick 3
tick 4
tick 5
";

const STOP: &[u8] = b" Exit 00000000
";

#[test]
fn clock(rt: HostRuntime) {
    shows(&rt, TEXT, OUTPUT, STOP);
}
