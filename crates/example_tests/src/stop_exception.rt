//! Written by examples/as_tests.sh from the files of examples/.
use crate::hosts::shows;

const TEXT: &[u8] =
    b"# The stop Exception: an exception that no call of the kernel is. Its fields are the exception's code and EPC.
# Here a sum overflows, code 0Ch. ADDIU in its place would wrap.

start:
        li      r8, 0x7FFFFFFF          # two words
        addi    r8, r8, 1               # at 80010008h
        nop
";

const OUTPUT: &[u8] = b"";

const STOP: &[u8] = b" Exception 0000000C 80010008
";

#[test]
fn stop_exception(rt: HostRuntime) {
    shows(&rt, TEXT, OUTPUT, STOP);
}
