//! Written by examples/as_tests.sh from the files of examples/.
use crate::hosts::shows;

const TEXT: &[u8] =
    b"# A linked list in the heap: an element for each letter of a text, with the next element's address at 0 and the letter at 4.
# Each new element is put before the others, so the list is the text from its end. It is written and freed, and then the whole heap is free again.

.equ GATE_A     0xA0
.equ EXIT       0x06
.equ MALLOC     0x33
.equ FREE       0x34
.equ INIT_HEAP  0x39
.equ PUTCHAR    0x3C
.equ PUTS       0x3E

start:
        li      r16, GATE_A
        la      r4, heap                # from where,
        li      r5, 256                 # and how many bytes
        jalr    r31, r16
        li      r9, INIT_HEAP           # in the slot of the jump
        la      r17, text
        li      r18, 0                  # the list: no element

build:  lbu     r19, 0(r17)             # the next letter
        addiu   r17, r17, 1
        beq     r19, r0, write          # 0: the text ends
        nop
        li      r4, 8                   # an element's bytes
        jalr    r31, r16
        li      r9, MALLOC
        beq     r2, r0, full            # no block is free
        nop
        sw      r18, 0(r2)
        sw      r19, 4(r2)
        b       build
        move    r18, r2

write:  beq     r18, r0, whole
        nop
        lw      r4, 4(r18)
        jalr    r31, r16
        li      r9, PUTCHAR
        move    r4, r18
        lw      r18, 0(r18)             # the next element, before this one is freed
        jalr    r31, r16
        li      r9, FREE
        b       write
        nop

whole:  li      r4, 256                 # all blocks were joined, so there is one of this size
        jalr    r31, r16
        li      r9, MALLOC
        la      r4, heap
        beq     r2, r4, exit
        li      r4, 0
        li      r4, 1

exit:   jr      r16
        li      r9, EXIT

full:   la      r4, none
        jalr    r31, r16
        li      r9, PUTS
        b       exit
        li      r4, 2

text:   .asciiz \"\\nstressed\"
none:   .asciiz \"no block is free\\n\"

        .align  3
heap:   .space  256
";

const OUTPUT: &[u8] = b"desserts
";

const STOP: &[u8] = b" Exit 00000000
";

#[test]
fn heap(rt: HostRuntime) {
    shows(&rt, TEXT, OUTPUT, STOP);
}
