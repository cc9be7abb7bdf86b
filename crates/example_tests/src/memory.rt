//! Written by examples/as_tests.sh from the files of examples/.
use crate::hosts::shows;

const TEXT: &[u8] =
    b"# Calls on the bytes of memory: bzero, bcopy, memmove and memcmp. Then setjmp and longjmp: a routine goes back to a place that was marked before it was called.
# A call keeps every register but r2, k0 and k1, so arguments are given anew only where they change.

.equ GATE_A   0xA0
.equ EXIT     0x06
.equ SETJMP   0x13
.equ LONGJMP  0x14
.equ BCOPY    0x27
.equ BZERO    0x28
.equ MEMMOVE  0x2C
.equ MEMCMP   0x2D
.equ PUTS     0x3E

start:
        li      r17, GATE_A
        la      r4, line                # from where,
        li      r5, 16                  # how many
        jalr    r31, r17
        li      r9, BZERO               # in the slot of the jump

        la      r4, letters             # from where,
        la      r5, line                # to where,
        li      r6, 8                   # how many
        jalr    r31, r17
        li      r9, BCOPY

        la      r4, line+2              # to where,
        la      r5, line                # from where: the two overlap,
        li      r6, 6                   # how many
        jalr    r31, r17
        li      r9, MEMMOVE             # so the line is now ababcdef
        la      r4, line
        jalr    r31, r17
        li      r9, PUTS

        la      r5, wanted
        li      r6, 8
        jalr    r31, r17
        li      r9, MEMCMP              # 0, since the 8 bytes are equal
        move    r16, r2

        la      r4, place
        jalr    r31, r17
        li      r9, SETJMP              # answers 0, and again 3 behind the longjmp
        bne     r2, r0, back
        nop
        li      r16, 1                  # longjmp gives r16 back
        jal     routine
        nop
        la      r4, never               # the routine doesn't return here
        jalr    r31, r17
        li      r9, PUTS

back:
        addiu   r2, r2, -3
        or      r16, r16, r2            # 0, if both answers were right
        la      r4, is_back
        jalr    r31, r17
        li      r9, PUTS
        move    r4, r16                 # the program's code
        jr      r17
        li      r9, EXIT

routine:
        la      r4, inside
        jalr    r31, r17
        li      r9, PUTS
        la      r4, place
        li      r5, 3                   # what setjmp answers now
        jr      r17
        li      r9, LONGJMP

letters:
        .asciiz \"abcdefgh\"
wanted: .asciiz \"ababcdef\"
inside: .asciiz \"\\nin the routine\\n\"
never:  .asciiz \"not reached\\n\"
is_back:
        .asciiz \"back again\\n\"
line:   .space  16
        .align  2
place:  .space  48                      # 12 words: r31, sp, fp, r16 to r23, gp
";

const OUTPUT: &[u8] = b"ababcdef
in the routine
back again
";

const STOP: &[u8] = b" Exit 00000000
";

#[test]
fn memory(rt: HostRuntime) {
    shows(&rt, TEXT, OUTPUT, STOP);
}
