//! Written by examples/as_tests.sh from the files of examples/.
use crate::hosts::shows;

const TEXT: &[u8] =
    b"# The stop SlotBranch: a branch or jump in the delay slot of another. Its field is the second one's address.

start:
        beq     r0, r0, there
        j       there                   # at 80010004h, in the slot
there:
        nop
";

const OUTPUT: &[u8] = b"";

const STOP: &[u8] = b" SlotBranch 80010004
";

#[test]
fn stop_slot_branch(rt: HostRuntime) {
    shows(&rt, TEXT, OUTPUT, STOP);
}
