//! Written by examples/as_tests.sh from the files of examples/.
use crate::hosts::shows;

const TEXT: &[u8] =
    b"# The stop Exit by table B's exit: its field is the code, here 7. The run's status is 0.

start:
        li      r4, 7
        li      r9, 0x38                # exit, in table B
        li      r10, 0xB0
        jr      r10
        nop
";

const OUTPUT: &[u8] = b"";

const STOP: &[u8] = b" Exit 00000007
";

#[test]
fn stop_exit(rt: HostRuntime) {
    shows(&rt, TEXT, OUTPUT, STOP);
}
