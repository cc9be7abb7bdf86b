//! Written by examples/as_tests.sh from the files of examples/.
use crate::hosts::shows;

const TEXT: &[u8] =
    b"# Functions that the kernel calls: each belongs to an event, and is called when the event is delivered.
# Three events have one class and spec. The delivery calls the first one's function and then the second's, which delivers another event whose function returns by ReturnFromException, and makes the third ready.
# Behind it the program goes on with its registers as they were. What it writes is said beside each line.

.equ GATE_A        0xA0
.equ GATE_B        0xB0
.equ EXIT          0x06
.equ PUTCHAR       0x3C
.equ DELIVER_EVENT 0x07
.equ OPEN_EVENT    0x08
.equ TEST_EVENT    0x0B
.equ ENABLE_EVENT  0x0C
.equ FROM_CALLBACK 0x17                 # ReturnFromException
.equ MARK          0x2000               # a delivery makes the event ready
.equ CALL          0x1000               # a delivery calls its function
.equ OWN           0x12345678           # a class
.equ INNER         0x12345679           # another one
.equ SPEC          4

start:
        li      r4, OWN
        li      r6, CALL
        la      r7, first
        jal     opened
        nop
        li      r4, OWN
        li      r6, CALL
        la      r7, second
        jal     opened
        nop
        li      r4, OWN
        li      r6, MARK
        li      r7, 0
        jal     opened
        nop
        move    r21, r2                 # its handle
        li      r4, INNER
        li      r6, CALL
        la      r7, inner
        jal     opened
        nop

        li      r20, 'd'
        li      r4, OWN
        li      r5, SPEC
        li      r9, DELIVER_EVENT
        li      r10, GATE_B
        jalr    r31, r10
        nop
        move    r4, r20                 # d: r20 is as it was before the call
        jal     write
        nop
        move    r4, r21
        li      r9, TEST_EVENT
        li      r10, GATE_B
        jalr    r31, r10
        nop
        addiu   r4, r2, '0'             # 1: the third event is ready
        jal     write
        nop
        li      r4, 10
        jal     write
        nop
        li      r4, 0
        li      r9, EXIT
        li      r10, GATE_A
        jr      r10
        nop

# Opens an event with the class in r4, the mode in r6 and the function in r7, and enables it: r2 is its handle.
opened:
        move    r16, r31
        li      r5, SPEC
        li      r9, OPEN_EVENT
        li      r10, GATE_B
        jalr    r31, r10
        nop
        move    r17, r2
        move    r4, r2
        li      r9, ENABLE_EVENT
        li      r10, GATE_B
        jalr    r31, r10
        nop
        move    r2, r17
        jr      r16
        nop

# The function of the first event. Its return address is the gate E0h, and its stack is below the program's.
first:
        addiu   r29, r29, -8
        sw      r31, 0(r29)
        li      r20, 'x'                # the program's r20 isn't this one
        li      r4, 'a'                 # a
        jal     write
        nop
        lw      r31, 0(r29)
        addiu   r29, r29, 8
        jr      r31
        nop

# That of the second one.
second:
        addiu   r29, r29, -8
        sw      r31, 0(r29)
        li      r4, INNER
        li      r5, SPEC
        li      r9, DELIVER_EVENT
        li      r10, GATE_B
        jalr    r31, r10                # b, by the inner function
        nop
        li      r4, 'c'                 # c
        jal     write
        nop
        lw      r31, 0(r29)
        addiu   r29, r29, 8
        jr      r31
        nop

# That of the event that the second one delivers. It doesn't return to its gate.
inner:
        li      r4, 'b'
        jal     write
        nop
        li      r9, FROM_CALLBACK
        li      r10, GATE_B
        jr      r10
        nop

# Writes the byte in r4.
write:
        li      r9, PUTCHAR
        li      r10, GATE_A
        jr      r10
        nop
";

const OUTPUT: &[u8] = b"abcd1
";

const STOP: &[u8] = b" Exit 00000000
";

#[test]
fn callback(rt: HostRuntime) {
    shows(&rt, TEXT, OUTPUT, STOP);
}
