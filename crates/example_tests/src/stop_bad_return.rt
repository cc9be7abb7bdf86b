//! Written by examples/as_tests.sh from the files of examples/.
use crate::hosts::shows;

const TEXT: &[u8] =
    b"# The stop BadReturn: gate E0h, where a callback returns to, is reached with no callback under way. Its field is r31.

start:
        li      r31, 0x1234
        li      r10, 0xE0
        jr      r10
        nop
";

const OUTPUT: &[u8] = b"";

const STOP: &[u8] = b" BadReturn 00001234
";

#[test]
fn stop_bad_return(rt: HostRuntime) {
    shows(&rt, TEXT, OUTPUT, STOP);
}
