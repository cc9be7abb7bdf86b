//! Written by examples/as_tests.sh from the files of examples/.
use crate::hosts::shows;

const TEXT: &[u8] = b"# toupper gives each byte of a text as its capital, and putchar writes it.
# The calls keep r16 and r17.

.equ GATE_A   0xA0
.equ EXIT     0x06
.equ TOUPPER  0x25
.equ PUTCHAR  0x3C

start:
        li      r17, GATE_A
        la      r16, text
next:
        lbu     r4, 0(r16)
        addiu   r16, r16, 1
        beq     r4, r0, done            # the zero behind the text
        nop
        jalr    r31, r17
        li      r9, TOUPPER             # in the slot of the jump
        move    r4, r2                  # the capital
        jalr    r31, r17
        li      r9, PUTCHAR
        j       next
        nop
done:
        move    r4, r0
        jr      r17
        li      r9, EXIT

text:   .asciiz \"A letter [a-z], {not} this.\\n\"
";

const OUTPUT: &[u8] = b"A LETTER [A-Z], {NOT} THIS.
";

const STOP: &[u8] = b" Exit 00000000
";

#[test]
fn toupper(rt: HostRuntime) {
    shows(&rt, TEXT, OUTPUT, STOP);
}
