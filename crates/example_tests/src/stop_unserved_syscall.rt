//! Written by examples/as_tests.sh from the files of examples/.
use crate::hosts::shows;

const TEXT: &[u8] =
    b"# The stop Unserved of a SYSCALL: the table's letter is Y, the number is r4, and the last field is the SYSCALL's own address.

start:
        li      r4, 3
        syscall                         # at 80010004h
";

const OUTPUT: &[u8] = b"";

const STOP: &[u8] = b" Unserved Y 00000003 80010004
";

#[test]
fn stop_unserved_syscall(rt: HostRuntime) {
    shows(&rt, TEXT, OUTPUT, STOP);
}
