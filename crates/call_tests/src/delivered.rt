//! Programs with deliveries, and what they have behind their texts.
use crate::said::{EVENTS_64, ran};
use psx_base::Out;
use std::process::Abort;

// What each program has behind its own text. `open` opens an event of class 12345678h with the spec in r5, the mode in r6 and the function in r7, and enables it; r2 is its handle.
// `deliver` delivers to that class and the spec in r5. `test` says whether the event in r4 is ready. `letter` writes r4. A function ends by `j back`.
const PIECES: &[u8] = b"
open:   move    r21, r31
        li      r4, 0x12345678
        li      r9, 0x08                # OpenEvent
        jal     b
        nop
        move    r22, r2
        move    r4, r2
        li      r9, 0x0C                # EnableEvent
        jal     b
        nop
        move    r2, r22
        jr      r21
        nop
deliver:
        li      r4, 0x12345678
        li      r9, 0x07                # DeliverEvent
        j       b
        nop
test:   move    r21, r31
        li      r9, 0x0B                # TestEvent
        jal     b
        nop
        jal     say
        nop
        jr      r21
        nop
letter: li      r9, 0x3C                # putchar
        li      r10, 0xA0
        jr      r10
        nop
back:   li      r31, 0xE0               # a function's return
        jr      r31
        nop
";

// Runs a text with these behind it to a stop, and looks at what it writes.
pub(crate) fn says<R: AllocGlobal + Abort>(rt: &R, text: &[u8], tty: &[u8], stop: &[u8]) {
    let mut whole = Vec::new(rt.alloc());
    whole.extend_from_slice(text).expect(rt, "room");
    whole.extend_from_slice(PIECES).expect(rt, "room");
    let host = ran(rt, &whole, EVENTS_64, stop);
    assert_eq!(rt; host.sent(Out::Tty), tty);
}

pub(crate) const ENDS: &[u8] = b" Exit 00000000\n";
