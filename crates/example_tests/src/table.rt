//! Written by examples/as_tests.sh from the files of examples/.
use crate::hosts::shows;

const TEXT: &[u8] =
    b"# A loop over a table of bytes: prints each as a digit by table B's putchar, and ends by _exit with their sum.
# 3 + 1 + 4 + 1 + 5 + 9 + 2 + 6 = 31, which is 1Fh.

.equ GATE_A   0xA0
.equ GATE_B   0xB0
.equ _EXIT    0x3A                      # in table A
.equ PUTCHAR  0x3D                      # in table B

start:
        la      r16, table
        la      r17, table_end
        li      r18, 0                  # the sum so far
next:
        lbu     r8, 0(r16)
        addiu   r16, r16, 1
        addu    r18, r18, r8
        addiu   r4, r8, '0'
        li      r9, PUTCHAR
        li      r10, GATE_B
        jalr    r31, r10
        nop
        bne     r16, r17, next
        nop

        li      r4, 0x0A                # a line feed
        li      r9, PUTCHAR
        jalr    r31, r10                # the call kept r10
        nop
        move    r4, r18
        li      r9, _EXIT
        li      r10, GATE_A
        jr      r10
        nop

table:  .byte   3 1 4 1 5 9 2 6
table_end:
";

const OUTPUT: &[u8] = b"31415926
";

const STOP: &[u8] = b" Exit 0000001F
";

#[test]
fn table(rt: HostRuntime) {
    shows(&rt, TEXT, OUTPUT, STOP);
}
