//! Written by examples/as_tests.sh from the files of examples/.
use crate::hosts::shows;

const TEXT: &[u8] =
    b"# Hello: writes a line to the console, a byte at a time, and ends with exit(0).
# A call of the kernel: its number in r9, its argument in r4, and a jump to the gate of its table with the return address in r31.

.equ GATE_A   0xA0
.equ EXIT     0x06
.equ PUTCHAR  0x3C

start:
        la      r16, text
        li      r17, GATE_A
next:
        lbu     r4, 0(r16)
        addiu   r16, r16, 1             # r4 holds the byte only behind this instruction
        beq     r4, r0, done
        li      r9, PUTCHAR             # in the slot of the branch: executed whether or not it is taken
        jalr    r31, r17
        nop
        b       next
        nop
done:
        li      r4, 0
        li      r9, EXIT
        jr      r17
        nop

text:   .asciiz \"Hello from the user side.\\n\"
";

const OUTPUT: &[u8] = b"Hello from the user side.
";

const STOP: &[u8] = b" Exit 00000000
";

#[test]
fn hello(rt: HostRuntime) {
    shows(&rt, TEXT, OUTPUT, STOP);
}
