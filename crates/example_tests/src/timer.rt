//! Written by examples/as_tests.sh from the files of examples/.
use crate::hosts::shows;

const TEXT: &[u8] =
    b"# Counts by a root counter how many steps a loop takes: once with one turn, and once with 101. What both have in common, as the calls of the counter, falls out of the difference.
# A turn has three instructions, so it writes 300.

.equ GATE_A        0xA0
.equ GATE_B        0xB0
.equ EXIT          0x06
.equ PUTS          0x3E
.equ INIT_TIMER    0x02
.equ GET_TIMER     0x03
.equ RESTART_TIMER 0x06
.equ SYSTEM        2                    # the counter that counts the processor's steps
.equ PLAIN         1                    # the flags: each step, and no interrupt

start:
        li      r20, GATE_B
        li      r4, SYSTEM
        li      r5, 0xFFFF              # the target, behind which it is 0 again
        li      r6, PLAIN
        jalr    r31, r20
        li      r9, INIT_TIMER          # in the slot of the jump
        jal     measure
        li      r16, 1
        move    r18, r2
        jal     measure
        li      r16, 101
        subu    r2, r2, r18

        la      r16, digits             # the digits come from the last one on
        li      r10, 10
digit:
        divu    r2, r10
        mfhi    r8
        mflo    r2
        addiu   r8, r8, '0'
        addiu   r16, r16, -1
        bne     r2, r0, digit
        sb      r8, 0(r16)
        li      r20, GATE_A
        move    r4, r16
        jalr    r31, r20
        li      r9, PUTS
        li      r4, 0
        jr      r20
        li      r9, EXIT

# The steps from a restart of the counter on, with r16 turns of the loop: r2.
measure:
        move    r21, r31
        li      r4, SYSTEM
        jalr    r31, r20
        li      r9, RESTART_TIMER
turn:
        addiu   r16, r16, -1
        bne     r16, r0, turn
        nop
        li      r4, SYSTEM
        jalr    r31, r20
        li      r9, GET_TIMER
        jr      r21
        nop

        .space  11
digits: .asciiz \"\\n\"
";

const OUTPUT: &[u8] = b"300
";

const STOP: &[u8] = b" Exit 00000000
";

#[test]
fn timer(rt: HostRuntime) {
    shows(&rt, TEXT, OUTPUT, STOP);
}
