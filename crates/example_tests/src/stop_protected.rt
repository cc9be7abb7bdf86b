//! Written by examples/as_tests.sh from the files of examples/.
use crate::hosts::shows;

const TEXT: &[u8] =
    b"# The stop Protected: MFC0, MTC0 and RFE are the kernel's. Its field is the instruction's address.
# A program that wants interrupts off asks by SYSCALL (critical.s).

start:
        nop
        mfc0    r8, 12                  # SR, at 80010004h
        nop
";

const OUTPUT: &[u8] = b"";

const STOP: &[u8] = b" Protected 80010004
";

#[test]
fn stop_protected(rt: HostRuntime) {
    shows(&rt, TEXT, OUTPUT, STOP);
}
