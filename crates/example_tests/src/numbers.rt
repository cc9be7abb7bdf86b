//! Written by examples/as_tests.sh from the files of examples/.
use crate::hosts::shows;

const TEXT: &[u8] =
    b"# strtol reads the numbers of a line one by one, in the base that each one's prefix says, and tells where the rest begins; abs drops the sign of their sum.
# 40 + 1Fh - 0FFh + 17 octal is 40 + 31 - 255 + 15 = -169, and without its sign 169, which is A9h. It is written as text by the program's own division.

.equ GATE_A   0xA0
.equ EXIT     0x06
.equ STRTOL   0x0D
.equ ABS      0x0E
.equ PUTS     0x3E

start:
        li      r17, GATE_A
        li      r18, 0                  # the sum so far
        la      r4, line                # what is still to be read
        la      r5, rest
        li      r6, 0                   # each number says its base
next:
        jalr    r31, r17
        li      r9, STRTOL              # in the slot of the jump
        lw      r8, 0(r5)
        addu    r18, r18, r2
        beq     r8, r4, done            # no number was there
        nop
        beq     r0, r0, next
        move    r4, r8
done:
        move    r4, r18
        jalr    r31, r17
        li      r9, ABS
        move    r19, r2
        la      r16, digits             # the digits come from the last one on
        li      r10, 10
digit:
        divu    r2, r10
        mfhi    r8
        mflo    r2
        addiu   r8, r8, '0'
        addiu   r16, r16, -1
        bne     r2, r0, digit
        sb      r8, 0(r16)
        move    r4, r16
        jalr    r31, r17
        li      r9, PUTS
        move    r4, r19                 # the code is the sum without its sign
        jr      r17
        li      r9, EXIT

        .align  4
rest:   .word   0
line:   .asciiz \"40 0x1F -0xff\\t017 end\"
        .space  11
digits: .asciiz \"\\n\"
";

const OUTPUT: &[u8] = b"169
";

const STOP: &[u8] = b" Exit 000000A9
";

#[test]
fn numbers(rt: HostRuntime) {
    shows(&rt, TEXT, OUTPUT, STOP);
}
