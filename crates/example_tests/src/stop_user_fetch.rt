//! Written by examples/as_tests.sh from the files of examples/.
use crate::hosts::shows;

const TEXT: &[u8] =
    b"# The stop UserFetch: the program went to an address that is neither user memory nor a gate. Its field is that address.
# Here it calls a function by a null pointer.

start:
        li      r8, 0
        jalr    r31, r8
        nop
";

const OUTPUT: &[u8] = b"";

const STOP: &[u8] = b" UserFetch 00000000
";

#[test]
fn stop_user_fetch(rt: HostRuntime) {
    shows(&rt, TEXT, OUTPUT, STOP);
}
