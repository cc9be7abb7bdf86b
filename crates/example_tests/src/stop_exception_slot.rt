//! Written by examples/as_tests.sh from the files of examples/.
use crate::hosts::shows;

const TEXT: &[u8] =
    b"# The stop Exception in a delay slot: EPC is the branch's address, not the slot's.
# Here a word is loaded from an odd address, code 4.

start:
        la      r8, number              # two words
        b       start                   # at 80010008h
        lw      r9, 1(r8)               # at 8001000Ch

        .align  2
number: .word   0
";

const OUTPUT: &[u8] = b"";

const STOP: &[u8] = b" Exception 00000004 80010008
";

#[test]
fn stop_exception_slot(rt: HostRuntime) {
    shows(&rt, TEXT, OUTPUT, STOP);
}
