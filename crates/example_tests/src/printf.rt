//! Written by examples/as_tests.sh from the files of examples/.
use crate::hosts::shows;

const TEXT: &[u8] =
    b"# printf with a conversion of each kind. The arguments behind the format are r5 to r7, and then words from sp+16 on, so the program makes room for those on its stack.
# The answers are how many bytes were written: 23 and 25, so the code is 48, which is 30h.

.equ GATE_A   0xA0
.equ EXIT     0x06
.equ PRINTF   0x3F

start:
        addiu   r29, r29, -24
        li      r17, GATE_A
        la      r4, first
        li      r5, 42
        li      r6, -7
        la      r7, letters
        li      r8, 48879
        sw      r8, 16(r29)             # the fourth argument
        jalr    r31, r17
        li      r9, PRINTF              # in the slot of the jump
        move    r18, r2
        la      r4, second
        li      r5, 7
        li      r6, 'A'
        li      r7, 0                   # no text
        li      r8, 8
        sw      r8, 16(r29)
        li      r8, 48879
        sw      r8, 20(r29)             # the fifth
        jalr    r31, r17
        li      r9, PRINTF
        addu    r4, r18, r2
        jr      r17
        li      r9, EXIT

first:  .asciiz \"%-5d|%05d|%.3s|%%|%x\\n\"
second: .asciiz \"%.3d|%5c|%-4s|%o|%X\\n\"
letters: .asciiz \"abcdef\"
";

const OUTPUT: &[u8] = b"42   |-0007|abc|%|beef
007|    A|(null)|10|BEEF
";

const STOP: &[u8] = b" Exit 00000030
";

#[test]
fn printf(rt: HostRuntime) {
    shows(&rt, TEXT, OUTPUT, STOP);
}
