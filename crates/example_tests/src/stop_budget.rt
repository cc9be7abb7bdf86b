//! Written by examples/as_tests.sh from the files of examples/.
use crate::hosts::shows;

const TEXT: &[u8] =
    b"# The stop Budget: as many steps were made as the budget has. This program would go on for ever. The run's status is 0.

start:
        li      r4, '.'
        li      r9, 0x3C                # putchar
        li      r10, 0xA0
        jalr    r31, r10
        nop
for_ever:
        b       for_ever
        nop
";

const OUTPUT: &[u8] = b".";

const STOP: &[u8] = b" Budget
";

#[test]
fn stop_budget(rt: HostRuntime) {
    shows(&rt, TEXT, OUTPUT, STOP);
}
