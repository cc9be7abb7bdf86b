//! Written by examples/as_tests.sh from the files of examples/.
use crate::hosts::shows;

const TEXT: &[u8] =
    b"# A critical section: SYSCALL with r4 1 turns interrupts off and answers in r2 whether they were on, with r4 2 it turns them on.
# With r4 0 it does nothing. All but the first keep r2. Prints the answers of turning them off twice, on, and off again.

start:
        li      r4, 1
        syscall
        addiu   r16, r2, '0'            # 1: they were on
        syscall
        addiu   r17, r2, '0'            # 0: they were off
        li      r2, 7
        li      r4, 2
        syscall
        addiu   r18, r2, '0'            # 7: r2 is kept
        li      r4, 0
        syscall
        li      r4, 1
        syscall
        addiu   r19, r2, '0'            # 1: they were on again

        li      r10, 0xA0
        li      r9, 0x3C                # putchar
        jalr    r31, r10
        move    r4, r16                 # in the slot: the argument
        jalr    r31, r10
        move    r4, r17
        jalr    r31, r10
        move    r4, r18
        jalr    r31, r10
        move    r4, r19
        li      r9, 0x06                # exit
        jr      r10
        li      r4, 0
";

const OUTPUT: &[u8] = b"1071";

const STOP: &[u8] = b" Exit 00000000
";

#[test]
fn critical(rt: HostRuntime) {
    shows(&rt, TEXT, OUTPUT, STOP);
}
