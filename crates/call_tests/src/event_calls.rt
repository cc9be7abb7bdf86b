//! The calls on events, made by programs on the image.
use crate::said::{EVENTS_32, EVENTS_64, RUN_SHORT, has, has_status, ran, ran_by, says};
use psx_base::Out;
use std::process::Abort;

// It opens events until the handle isn't the next one, and says that answer and how many there were.
const OPEN_ALL: &[u8] = b"
start:
        li      r20, 0
        li      r21, 0xF1000000
more:   li      r4, 0x12345678
        li      r5, 4
        li      r6, 0x2000
        li      r7, 0
        li      r9, 0x08                # OpenEvent
        jal     b
        nop
        addu    r22, r21, r20
        beq     r2, r22, more
        addiu   r20, r20, 1             # in the slot of the branch
        jal     say
        nop
        addiu   r2, r20, -1
        jal     say
        nop
";

#[test]
fn as_many_events_are_opened_as_there_are_slots(rt: HostRuntime) {
    says(&rt, OPEN_ALL, b"", b"FFFFFFFF\n00000010\n");
    says(&rt, OPEN_ALL, EVENTS_32, b"FFFFFFFF\n00000020\n");
    says(&rt, OPEN_ALL, EVENTS_64, b"FFFFFFFF\n00000040\n");
}

// The event has the four arguments, and is disabled.
#[test]
fn an_opened_event_is_disabled(rt: HostRuntime) {
    const TEXT: &[u8] = b"
start:
        li      r4, 0xF2000003
        li      r5, 2
        li      r6, 0x1000
        li      r7, 0x80012344
        li      r9, 0x08                # OpenEvent
        jal     b
        nop
        jal     say
        nop
        li      r4, 0xF1000000
        li      r9, 0x0B                # TestEvent
        jal     b
        nop
        jal     say
        nop
        li      r4, 0xF1000000
        li      r9, 0x0A                # WaitEvent
        jal     b
        nop
        jal     say
        nop
";
    let host = ran(&rt, TEXT, b"", b" Exit 00000000\n");
    assert_eq!(rt;
        host.sent(Out::Tty),
        b"F1000000\n00000000\n00000000\n".as_slice()
    );
    has(
        &rt,
        &host,
        0xBC00,
        b"\x03\0\0\xF2\0\x10\0\0\x02\0\0\0\0\x10\0\0\x44\x23\x01\x80\0\0\0\0\0\0\0\0\0\0\0\0",
    );
}

// A slot that is free again is the first one to be taken.
#[test]
fn a_closed_slot_is_taken_again(rt: HostRuntime) {
    const TEXT: &[u8] = b"
start:
        li      r20, 3
three:  li      r4, 7
        li      r9, 0x08                # OpenEvent
        jal     b
        nop
        addiu   r20, r20, -1
        bne     r20, r0, three
        nop
        li      r4, 0xF1000001
        li      r9, 0x09                # CloseEvent
        jal     b
        nop
        jal     say
        nop
        li      r4, 8
        li      r9, 0x08
        jal     b
        nop
        jal     say
        nop
        li      r4, 0xF1000002
        li      r9, 0x09
        jal     b
        nop
";
    let host = ran(&rt, TEXT, b"", b" Exit 00000000\n");
    assert_eq!(rt; host.sent(Out::Tty), b"00000001\nF1000001\n".as_slice());
    has_status(&rt, &host, 0, 0x1000);
    has_status(&rt, &host, 1, 0x1000);
    has(&rt, &host, 0xBC1C, b"\x08");
    has_status(&rt, &host, 2, 0);
}

// r23 is the first bad handle behind the table. The three that set a status answer 1 for a bad handle too, the other two 0.
const BAD_HANDLES: &[u8] = b"
        li      r22, 0xF0FFFFFF
        jal     try
        nop
        move    r22, r23
        jal     try
        nop
        beq     r0, r0, done
        nop
try:    move    r24, r31
        li      r25, 0x09               # CloseEvent, WaitEvent, TestEvent, EnableEvent, DisableEvent
next:   move    r4, r22
        move    r9, r25
        jal     b
        nop
        jal     say
        nop
        li      r20, 0x0D
        bne     r25, r20, next
        addiu   r25, r25, 1             # in the slot of the branch
        jr      r24
        nop
";

fn bad_handles_change_nothing<R: AllocGlobal + Abort>(
    rt: &R,
    behind: &[u8],
    config: &[u8],
    count: usize,
) {
    const TEXT: &[u8] =
        b"00000001\n00000000\n00000000\n00000001\n00000001\n00000001\n00000000\n00000000\n00000001\n00000001\n";
    let mut text = Vec::new(rt.alloc());
    text.extend_from_slice(OPEN_ALL).expect(rt, "room");
    text.extend_from_slice(behind).expect(rt, "room");
    text.extend_from_slice(BAD_HANDLES).expect(rt, "room");
    let host = ran(rt, &text, config, b" Exit 00000000\n");
    let answers = TEXT;
    assert!(rt; host.sent(Out::Tty).ends_with(answers));
    for i in 0..count {
        has_status(rt, &host, i, 0x1000);
    }
}

#[test]
fn a_bad_handle_changes_nothing(rt: HostRuntime) {
    bad_handles_change_nothing(&rt, b"        li      r23, 0xF1000010\n", b"", 16);
    bad_handles_change_nothing(&rt, b"        li      r23, 0xF1000020\n", EVENTS_32, 32);
    bad_handles_change_nothing(&rt, b"        li      r23, 0xF1000040\n", EVENTS_64, 64);
}

// The first and the last event are enabled.
const ENABLE_ENDS: &[u8] = b"
        li      r4, 0xF1000000
        li      r9, 0x0C                # EnableEvent
        jal     b
        nop
        move    r4, r23
        li      r9, 0x0C
        jal     b
        nop
        jal     say
        nop
        move    r4, r23
        li      r9, 0x0B                # TestEvent: it is busy, and not ready
        jal     b
        nop
        jal     say
        nop
";

fn the_ends_are_good<R: AllocGlobal + Abort>(rt: &R, last: &[u8], config: &[u8], count: usize) {
    let mut text = Vec::new(rt.alloc());
    text.extend_from_slice(OPEN_ALL).expect(rt, "room");
    text.extend_from_slice(last).expect(rt, "room");
    text.extend_from_slice(ENABLE_ENDS).expect(rt, "room");
    let host = ran(rt, &text, config, b" Exit 00000000\n");
    assert!(rt; host.sent(Out::Tty).ends_with(b"00000001\n00000000\n"));
    has_status(rt, &host, 0, 0x2000);
    has_status(rt, &host, 1, 0x1000);
    has_status(rt, &host, count.wrapping_sub(2), 0x1000);
    has_status(rt, &host, count.wrapping_sub(1), 0x2000);
}

#[test]
fn the_first_and_the_last_handle_are_good(rt: HostRuntime) {
    the_ends_are_good(&rt, b"        li      r23, 0xF100000F\n", b"", 16);
    the_ends_are_good(&rt, b"        li      r23, 0xF100001F\n", EVENTS_32, 32);
    the_ends_are_good(&rt, b"        li      r23, 0xF100003F\n", EVENTS_64, 64);
}

// With a free slot the three answer 1 and leave it free.
#[test]
fn a_free_slot_stays_free(rt: HostRuntime) {
    const TEXT: &[u8] = b"
start:
        li      r4, 0xF1000000
        li      r9, 0x0C                # EnableEvent
        jal     b
        nop
        jal     say
        nop
        li      r4, 0xF1000001
        li      r9, 0x0D                # DisableEvent
        jal     b
        nop
        jal     say
        nop
        li      r4, 0xF1000000
        li      r9, 0x0A                # WaitEvent doesn't wait
        jal     b
        nop
        jal     say
        nop
";
    let host = ran(&rt, TEXT, b"", b" Exit 00000000\n");
    assert_eq!(rt;
        host.sent(Out::Tty),
        b"00000001\n00000001\n00000000\n".as_slice()
    );
    has_status(&rt, &host, 0, 0);
    has_status(&rt, &host, 1, 0);
}

// A busy event that is disabled is waited for no more, and UnDeliverEvent leaves one that isn't ready as it is.
#[test]
fn a_disabled_event_is_not_waited_for(rt: HostRuntime) {
    const TEXT: &[u8] = b"
start:
        li      r4, 0x12345678
        li      r5, 4
        li      r6, 0x2000
        li      r9, 0x08                # OpenEvent
        jal     b
        nop
        li      r4, 0xF1000000
        li      r9, 0x0C                # EnableEvent
        jal     b
        nop
        li      r4, 0xF1000000
        li      r9, 0x0D                # DisableEvent
        jal     b
        nop
        jal     say
        nop
        li      r4, 0xF1000000
        li      r9, 0x0A                # WaitEvent
        jal     b
        nop
        jal     say
        nop
        li      r4, 0x12345678
        li      r5, 4
        li      r9, 0x20                # UnDeliverEvent
        jal     b
        nop
        jal     say
        nop
";
    let host = ran(&rt, TEXT, b"", b" Exit 00000000\n");
    assert_eq!(rt;
        host.sent(Out::Tty),
        b"00000001\n00000000\n00000000\n".as_slice()
    );
    has_status(&rt, &host, 0, 0x1000);
}

// Each try goes back to the gate with interrupts off, until the budget is used.
#[test]
fn a_busy_event_is_waited_for_until_the_budget(rt: HostRuntime) {
    const TEXT: &[u8] = b"
start:
        li      r9, 0x08                # OpenEvent
        jal     b
        nop
        li      r4, 0xF1000000
        li      r9, 0x0C                # EnableEvent
        jal     b
        nop
        li      r4, 1
        syscall                         # interrupts off
        li      r4, 0xF1000000
        li      r9, 0x0A                # WaitEvent
        jal     b
        nop
";
    let host = ran_by(&rt, &RUN_SHORT, TEXT, b"", b" Budget\n");
    let tries = host
        .sent(Out::Trace)
        .windows(18)
        .filter(|window| *window == b" 000000B0 00000400".as_slice())
        .count();
    assert!(rt; tries > 9);
}
