//! Written by examples/as_tests.sh from the files of examples/.
use crate::hosts::shows;

const TEXT: &[u8] =
    b"# Four threads pass a token round a ring, a hundred times. Each has its letter in gp and counts its turns in r16; at each 25th turn it writes the letter.
# The stack of each has 256 bytes. The first thread ends with the token, which each turn raises by 1.

.equ GATE_A         0xA0
.equ GATE_B         0xB0
.equ EXIT           0x06                # in table A
.equ PUTCHAR        0x3C
.equ OPEN_THREAD    0x0E                # in table B
.equ CHANGE_THREAD  0x10
.equ FIRST          0xFF000000          # the first thread's handle

start:
        li      r28, 'A'
        li      r5, 0x80100000
        li      r6, 'B'
        li      r8, 'E'
open:
        la      r4, turns
        li      r9, OPEN_THREAD
        li      r10, GATE_B
        jalr    r31, r10                # FF000001h and on, for B, C and D
        nop
        addiu   r6, r6, 1
        bne     r6, r8, open
        addiu   r5, r5, -256            # in the slot

# where each thread begins, the first one by falling in
turns:
        li      r16, 0
        li      r17, 25                 # the turn at which it writes
        li      r18, FIRST
        addiu   r8, r28, -64            # the next thread's number: 1 for A, up to 4 for D
        addiu   r11, r8, -4
        beq     r11, r0, turn           # behind the last comes the first
        nop
        addu    r18, r18, r8
turn:
        la      r19, token
        lw      r20, 0(r19)
        addiu   r16, r16, 1
        addiu   r20, r20, 1
        sw      r20, 0(r19)
        bne     r16, r17, pass
        nop
        addiu   r17, r17, 25
        move    r4, r28
        li      r9, PUTCHAR
        li      r10, GATE_A
        jalr    r31, r10
        nop
pass:
        move    r4, r18
        li      r9, CHANGE_THREAD
        li      r10, GATE_B
        jalr    r31, r10                # goes on here when the token comes back
        nop
        li      r8, 100
        bne     r16, r8, turn
        nop
        # the first thread comes here first
        li      r4, 0x0A                # a line feed
        li      r9, PUTCHAR
        li      r10, GATE_A
        jalr    r31, r10
        nop
        la      r19, token
        lw      r4, 0(r19)
        li      r9, EXIT
        jr      r10
        nop

token:  .word   0
";

const OUTPUT: &[u8] = b"ABCDABCDABCDABCD
";

const STOP: &[u8] = b" Exit 00000190
";

#[test]
fn ring(rt: HostRuntime) {
    shows(&rt, TEXT, OUTPUT, STOP);
}
