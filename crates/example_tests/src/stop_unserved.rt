//! Written by examples/as_tests.sh from the files of examples/.
use crate::hosts::shows;

const TEXT: &[u8] =
    b"# The stop Unserved: a call whose number isn't served. Its fields are the table, the number and r31, the place that made the call.
# Here it is 31h of table A, qsort.

start:
        li      r9, 0x31
        li      r10, 0xA0
        jalr    r31, r10                # at 80010008h, so r31 is 80010010h
        nop
";

const OUTPUT: &[u8] = b"";

const STOP: &[u8] = b" Unserved A 00000031 80010010
";

#[test]
fn stop_unserved(rt: HostRuntime) {
    shows(&rt, TEXT, OUTPUT, STOP);
}
