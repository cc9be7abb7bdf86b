//! Written by examples/as_tests.sh from the files of examples/.
use crate::hosts::shows;

const TEXT: &[u8] =
    b"# Registers over a call: each register has a value of its own, putchar is called, and each is compared with its value.
# A call changes r2, which is the answer, k0 (r26), the address returned to, and k1 (r27), which is 0. All others are kept, HI and LO too.
# Prints `k` by the call that is looked at, then `ept` where all were kept and a `!` where one wasn't. The code has the bits that differ.

start:
        li      r1, 7777
        mthi    r1
        li      r1, 6666
        mtlo    r1
        li      r1, 1001
        li      r3, 1003
        li      r4, 'k'                 # the argument
        li      r5, 1005
        li      r6, 1006
        li      r7, 1007
        li      r8, 1008
        li      r9, 0x3C                # putchar
        li      r10, 0xA0
        li      r11, 1011
        li      r12, 1012
        li      r13, 1013
        li      r14, 1014
        li      r15, 1015
        li      r16, 1016
        li      r17, 1017
        li      r18, 1018
        li      r19, 1019
        li      r20, 1020
        li      r21, 1021
        li      r22, 1022
        li      r23, 1023
        li      r24, 1024
        li      r25, 1025
        li      r28, 1028
        li      r29, 1029               # sp: the kernel uses no stack of the program's
        li      r30, 1030
        jalr    r31, r10
        nop
back:
# r1 gets each register's difference from its value, one after the other.
        xori    r1, r1, 1001
        xori    r2, r2, 'k'
        or      r1, r1, r2
        xori    r3, r3, 1003
        or      r1, r1, r3
        xori    r4, r4, 'k'
        or      r1, r1, r4
        xori    r5, r5, 1005
        or      r1, r1, r5
        xori    r6, r6, 1006
        or      r1, r1, r6
        xori    r7, r7, 1007
        or      r1, r1, r7
        xori    r8, r8, 1008
        or      r1, r1, r8
        xori    r9, r9, 0x3C
        or      r1, r1, r9
        xori    r10, r10, 0xA0
        or      r1, r1, r10
        xori    r11, r11, 1011
        or      r1, r1, r11
        xori    r12, r12, 1012
        or      r1, r1, r12
        xori    r13, r13, 1013
        or      r1, r1, r13
        xori    r14, r14, 1014
        or      r1, r1, r14
        xori    r15, r15, 1015
        or      r1, r1, r15
        xori    r16, r16, 1016
        or      r1, r1, r16
        xori    r17, r17, 1017
        or      r1, r1, r17
        xori    r18, r18, 1018
        or      r1, r1, r18
        xori    r19, r19, 1019
        or      r1, r1, r19
        xori    r20, r20, 1020
        or      r1, r1, r20
        xori    r21, r21, 1021
        or      r1, r1, r21
        xori    r22, r22, 1022
        or      r1, r1, r22
        xori    r23, r23, 1023
        or      r1, r1, r23
        xori    r24, r24, 1024
        or      r1, r1, r24
        xori    r25, r25, 1025
        or      r1, r1, r25
        xori    r28, r28, 1028
        or      r1, r1, r28
        xori    r29, r29, 1029
        or      r1, r1, r29
        xori    r30, r30, 1030
        or      r1, r1, r30
        mfhi    r3
        xori    r3, r3, 7777
        or      r1, r1, r3
        mflo    r3
        xori    r3, r3, 6666
        or      r1, r1, r3
        la      r3, back
        xor     r2, r26, r3             # k0
        or      r1, r1, r2
        xor     r2, r31, r3
        or      r1, r1, r2
        or      r1, r1, r27             # k1

        la      r16, kept
        beq     r1, r0, print
        nop
        la      r16, lost
print:
        lbu     r4, 0(r16)
        addiu   r16, r16, 1
        beq     r4, r0, done
        li      r9, 0x3C                # putchar
        li      r10, 0xA0
        jalr    r31, r10
        nop
        b       print
        nop
done:
        move    r4, r1
        li      r9, 0x06                # exit
        li      r10, 0xA0
        jr      r10
        nop

kept:   .asciiz \"ept\\n\"
lost:   .asciiz \"!\\n\"
";

const OUTPUT: &[u8] = b"kept
";

const STOP: &[u8] = b" Exit 00000000
";

#[test]
fn registers(rt: HostRuntime) {
    shows(&rt, TEXT, OUTPUT, STOP);
}
