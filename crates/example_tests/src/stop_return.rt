//! Written by examples/as_tests.sh from the files of examples/.
use crate::hosts::shows;

const TEXT: &[u8] =
    b"# The stop Exit by the program's own return: at its start r31 is the gate D0h, and the code is r2 when it comes there.

start:
        li      r2, 5
        jr      r31
        nop
";

const OUTPUT: &[u8] = b"";

const STOP: &[u8] = b" Exit 00000005
";

#[test]
fn stop_return(rt: HostRuntime) {
    shows(&rt, TEXT, OUTPUT, STOP);
}
