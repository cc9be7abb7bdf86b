//! Written by examples/as_tests.sh from the files of examples/.
use crate::hosts::shows;

const TEXT: &[u8] =
    b"# memchr finds the first of so many bytes, and puts writes a text from an address on.
# A call keeps every register but r2, k0 and k1, so r4 to r6 are given anew only where they change.

.equ GATE_A   0xA0
.equ EXIT     0x06
.equ MEMCHR   0x2E
.equ PUTS     0x3E

start:
        li      r17, GATE_A
        la      r4, text                # from where,
        li      r5, 't'                 # which byte,
        li      r6, 16                  # among how many
        jalr    r31, r17
        li      r9, MEMCHR              # in the slot of the jump
        move    r4, r2                  # the address of the first t
        jalr    r31, r17
        li      r9, PUTS
        la      r4, text
        li      r6, 4                   # there is no t among the first four
        jalr    r31, r17
        li      r9, MEMCHR
        move    r4, r2                  # so the answer is 0, and the program's code
        jr      r17
        li      r9, EXIT

text:   .asciiz \"Here and there.\\n\"
";

const OUTPUT: &[u8] = b"there.
";

const STOP: &[u8] = b" Exit 00000000
";

#[test]
fn memchr(rt: HostRuntime) {
    shows(&rt, TEXT, OUTPUT, STOP);
}
