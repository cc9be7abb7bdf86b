//! Written by examples/as_tests.sh from the files of examples/.
use crate::hosts::shows;

const TEXT: &[u8] =
    b"# Opens an event, and looks at it: nothing delivers it here, so no test finds it ready.
# Then an element goes into a chain of interrupt handlers, and comes out again.
# Each answer is written as a digit, that of SysDeqIntRP without its sign.

.equ GATE_A        0xA0
.equ GATE_B        0xB0
.equ GATE_C        0xC0
.equ EXIT          0x06
.equ PUTCHAR       0x3C
.equ OPEN_EVENT    0x08
.equ CLOSE_EVENT   0x09
.equ WAIT_EVENT    0x0A
.equ TEST_EVENT    0x0B
.equ ENABLE_EVENT  0x0C
.equ DISABLE_EVENT 0x0D
.equ SYS_ENQ       0x02
.equ SYS_DEQ       0x03
.equ MARK          0x2000               # a delivery makes the event ready

start:
        li      r20, GATE_B
        jal     open
        nop
        move    r21, r2                 # its handle
        move    r4, r21
        jalr    r31, r20
        li      r9, ENABLE_EVENT        # in the slot of the jump
        move    r4, r21
        jalr    r31, r20
        li      r9, TEST_EVENT          # it is busy: 0
        jal     show
        nop
        move    r4, r21
        jalr    r31, r20
        li      r9, DISABLE_EVENT
        move    r4, r21
        jalr    r31, r20
        li      r9, WAIT_EVENT          # it is disabled, so this doesn't wait: 0
        jal     show
        nop
        move    r4, r21
        jalr    r31, r20
        li      r9, CLOSE_EVENT         # 1
        jal     show
        nop
        jal     open                    # the slot is free again, and has the same handle
        nop
        subu    r2, r2, r21             # 0
        jal     show
        nop

        li      r20, GATE_C
        jal     arguments
        nop
        jalr    r31, r20
        li      r9, SYS_ENQ             # 0
        jal     show
        nop
        jal     arguments
        nop
        jalr    r31, r20
        li      r9, SYS_DEQ             # 0
        jal     show
        nop
        jal     arguments
        nop
        jalr    r31, r20
        li      r9, SYS_DEQ             # there is none left: -1
        subu    r2, r0, r2
        jal     show
        nop
        li      r4, 10
        li      r9, PUTCHAR
        li      r10, GATE_A
        jalr    r31, r10
        nop
        li      r4, 0
        li      r9, EXIT
        jr      r10
        nop

# An event of class 12345678h and spec 4.
open:
        li      r4, 0x12345678
        li      r5, 4
        li      r6, MARK
        li      r7, 0
        li      r9, OPEN_EVENT
        jr      r20                     # it returns to where open was called
        nop

# Chain 0, and the element.
arguments:
        li      r4, 0
        la      r5, element
        jr      r31
        nop

# Writes the digit in r2.
show:
        addiu   r4, r2, '0'
        li      r9, PUTCHAR
        li      r10, GATE_A
        jr      r10
        nop

element:
        .word   0, 0, 0                 # the next one, the second function, the first one
";

const OUTPUT: &[u8] = b"0010001
";

const STOP: &[u8] = b" Exit 00000000
";

#[test]
fn events(rt: HostRuntime) {
    shows(&rt, TEXT, OUTPUT, STOP);
}
