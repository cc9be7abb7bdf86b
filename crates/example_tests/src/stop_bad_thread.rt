//! Written by examples/as_tests.sh from the files of examples/.
use crate::hosts::shows;

const TEXT: &[u8] =
    b"# The stop BadThread: a handle names no thread, or ChangeThread is called with that of a free slot. Its fields are the handle as it is given and the caller's r31.
# Without a configuration there are 4 threads, FF000000h to FF000003h, and at the start the first alone is used.

start:
        li      r4, 0xFF000001          # two words
        li      r9, 0x10                # ChangeThread
        li      r10, 0xB0
        jalr    r31, r10                # at 80010010h, so r31 is 80010018h
        nop
";

const OUTPUT: &[u8] = b"";

const STOP: &[u8] = b" BadThread FF000001 80010018
";

#[test]
fn stop_bad_thread(rt: HostRuntime) {
    shows(&rt, TEXT, OUTPUT, STOP);
}
