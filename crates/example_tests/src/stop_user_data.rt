//! Written by examples/as_tests.sh from the files of examples/.
use crate::hosts::shows;

const TEXT: &[u8] =
    b"# The stop UserData: a load or store of the program at an address that isn't user memory. Its fields are the instruction's address and that one.
# Here it stores through a null pointer, by the third word from 80010000h on.

start:
        li      r8, 0
        li      r9, 7
        sw      r9, 8(r8)               # at 80010008h, to 00000008h
        nop
";

const OUTPUT: &[u8] = b"";

const STOP: &[u8] = b" UserData 80010008 00000008
";

#[test]
fn stop_user_data(rt: HostRuntime) {
    shows(&rt, TEXT, OUTPUT, STOP);
}
