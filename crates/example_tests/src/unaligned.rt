//! Written by examples/as_tests.sh from the files of examples/.
use crate::hosts::shows;

const TEXT: &[u8] =
    b"# Words at any address: LWR and LWL together read the four bytes from an address on, SWR and SWL write them.
# Between the two no instruction is needed: LWL sees what LWR has under way.
# The word at bytes + 1 is 55443322h; written to room + 2 and read back by bytes it gives the digits that are printed.

start:
        la      r16, bytes
        la      r17, room
        lwr     r4, 1(r16)
        lwl     r4, 4(r16)
        nop
        move    r20, r4                 # 55443322h
        swr     r20, 2(r17)
        swl     r20, 5(r17)

        addiu   r18, r17, 8
next:
        lbu     r4, 0(r17)              # 0 0 2 3 4 5 0 0 in the low four bits
        addiu   r17, r17, 1
        andi    r4, r4, 15
        addiu   r4, r4, '0'
        li      r9, 0x3C                # putchar
        li      r10, 0xA0
        jalr    r31, r10
        nop
        bne     r17, r18, next
        nop

        move    r4, r20
        li      r9, 0x06                # exit
        jr      r10
        nop

        .align  2
bytes:  .byte   0x11 0x22 0x33 0x44 0x55 0x66 0x77 0x88
room:   .space  8
";

const OUTPUT: &[u8] = b"00234500";

const STOP: &[u8] = b" Exit 55443322
";

#[test]
fn unaligned(rt: HostRuntime) {
    shows(&rt, TEXT, OUTPUT, STOP);
}
