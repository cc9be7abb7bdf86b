//! Deliveries to events without a function, in programs on the image.
use crate::delivered::{ENDS, says};

// Of two events the first alone is enabled: it becomes ready, and is so once.
#[test]
fn an_enabled_event_becomes_ready(rt: HostRuntime) {
    const TEXT: &[u8] = b"
start:  li      r5, 4
        li      r6, 0x2000
        jal     open
        nop
        li      r5, 4
        jal     open
        nop
        move    r4, r2
        li      r9, 0x0D                # DisableEvent
        jal     b
        nop
        li      r5, 4
        jal     deliver
        nop
        jal     say                     # DeliverEvent answers 0
        nop
        li      r4, 0xF1000000
        jal     test
        nop
        li      r4, 0xF1000000
        jal     test
        nop
        li      r4, 0xF1000001
        jal     test
        nop
        j       done
        nop
";
    says(&rt, TEXT, b"00000000\n00000001\n00000000\n00000000\n", ENDS);
}

// Three events of the class and spec become ready by one delivery, one of another spec and one of another mode don't.
#[test]
fn each_event_of_the_class_and_spec_becomes_ready(rt: HostRuntime) {
    const TEXT: &[u8] = b"
start:  li      r20, 3
three:  li      r5, 4
        li      r6, 0x2000
        jal     open
        nop
        addiu   r20, r20, -1
        bne     r20, r0, three
        nop
        li      r5, 5
        jal     open
        nop
        li      r5, 4
        li      r6, 0x1000
        li      r7, 0
        jal     open
        nop
        li      r5, 4
        jal     deliver
        nop
        li      r23, 0xF1000000
        li      r20, 5
each:   move    r4, r23
        jal     test
        nop
        addiu   r23, r23, 1
        addiu   r20, r20, -1
        bne     r20, r0, each
        nop
        j       done
        nop
";
    says(
        &rt,
        TEXT,
        b"00000001\n00000001\n00000001\n00000000\n00000000\n",
        ENDS,
    );
}

// The last of 64 events.
#[test]
fn the_last_event_becomes_ready(rt: HostRuntime) {
    const TEXT: &[u8] = b"
start:  li      r20, 63
        li      r5, 3
        li      r6, 0x2000
other:  jal     open
        nop
        addiu   r20, r20, -1
        bne     r20, r0, other
        nop
        li      r5, 4
        jal     open
        nop
        move    r20, r2
        li      r5, 4
        jal     deliver
        nop
        move    r2, r20
        jal     say
        nop
        move    r4, r20
        jal     test
        nop
        li      r4, 0xF100003E
        jal     test
        nop
        j       done
        nop
";
    says(&rt, TEXT, b"F100003F\n00000001\n00000000\n", ENDS);
}

// A SYSCALL with 4 or more in r4 delivers class F0000010h and spec 4000h, and keeps r2.
#[test]
fn a_syscall_delivers(rt: HostRuntime) {
    const TEXT: &[u8] = b"
start:  li      r4, 0xF0000010
        li      r5, 0x4000
        li      r6, 0x2000
        li      r7, 0
        li      r9, 0x08                # OpenEvent
        jal     b
        nop
        li      r20, 2
again:  li      r4, 0xF1000000
        li      r9, 0x0C                # EnableEvent
        jal     b
        nop
        li      r2, 7
        li      r4, 5
        bne     r20, r0, call
        nop
        li      r4, 0xFFFFFFFF
call:   syscall
        jal     say
        nop
        li      r4, 0xF1000000
        jal     test
        nop
        addiu   r20, r20, -2
        beq     r20, r0, again
        nop
        j       done
        nop
";
    says(&rt, TEXT, b"00000007\n00000001\n00000007\n00000001\n", ENDS);
}
