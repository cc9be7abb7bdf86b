//! Written by examples/as_tests.sh from the files of examples/.
use crate::hosts::shows;

const TEXT: &[u8] =
    b"# The load delay: the instruction behind a load still sees the register's old value, the one after it the new one.
# Of two loads of one register in a row the first is dropped.
# Prints what was seen behind one load, after that, and behind two loads, and ends with the three digits as its code.

start:
        la      r16, numbers
        li      r2, 1
        lw      r2, 0(r16)              # 7 is under way
        addu    r20, r2, r0             # sees the old value, 1
        addu    r21, r2, r0             # sees the new value, 7

        li      r3, 5
        lw      r3, 0(r16)              # 7 is under way, and never comes
        lw      r3, 4(r16)
        addu    r22, r3, r0             # sees the old value still, 5

        jal     print
        move    r4, r20                 # in the slot: the argument
        jal     print
        move    r4, r21
        jal     print
        move    r4, r22

        sll     r4, r20, 8
        sll     r8, r21, 4
        or      r4, r4, r8
        or      r4, r4, r22
        li      r9, 0x06                # exit
        li      r10, 0xA0
        jr      r10
        nop

# Prints the digit r4. The kernel returns to our own caller, since r31 is still its address.
print:
        addiu   r4, r4, '0'
        li      r9, 0x3C                # putchar
        li      r10, 0xA0
        jr      r10
        nop

        .align  2
numbers: .word  7 9
";

const OUTPUT: &[u8] = b"175";

const STOP: &[u8] = b" Exit 00000175
";

#[test]
fn load_delay(rt: HostRuntime) {
    shows(&rt, TEXT, OUTPUT, STOP);
}
