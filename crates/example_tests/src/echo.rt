//! Written by examples/as_tests.sh from the files of examples/.
use crate::hosts::shows_with;

const TEXT: &[u8] = b"# Copies each byte that comes to the console back to it, until a byte 04h.
# getchar waits: where no byte is due the kernel goes back to the gate's address, and the call is made again by itself.
# The bytes come by a schedule, echo.sched.

.equ GATE_A   0xA0
.equ EXIT     0x06
.equ GETCHAR  0x3B
.equ PUTCHAR  0x3C
.equ END      0x04                      # what ends the copy

start:
        li      r17, GATE_A
        li      r18, END
next:
        jalr    r31, r17
        li      r9, GETCHAR             # in the slot of the jump
        beq     r2, r18, done
        move    r4, r2                  # the byte that came
        jalr    r31, r17
        li      r9, PUTCHAR
        beq     r0, r0, next
        nop
done:
        li      r4, 0
        jr      r17
        li      r9, EXIT
";

const SCHEDULE: &[u8] = b"40000 byte 48
40000 byte 65
40000 byte 6C
45000 byte 6C
50000 byte 6F
50000 byte 0A
60000 byte 04
";

const OUTPUT: &[u8] = b"Hello
";

const STOP: &[u8] = b" Exit 00000000
";

#[test]
fn echo(rt: HostRuntime) {
    shows_with(&rt, TEXT, SCHEDULE, OUTPUT, STOP);
}
