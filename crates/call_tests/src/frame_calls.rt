//! Frames: functions within functions, how they return, and threads that they name, in programs on the image.
use crate::delivered::{ENDS, says};
use std::process::Abort;

// Three deliveries, one in the function of another: the last function that was called returns first.
#[test]
fn deliveries_nest(rt: HostRuntime) {
    const TEXT: &[u8] = b"
start:  li      r6, 0x1000
        li      r5, 1
        la      r7, one
        jal     open
        nop
        li      r5, 2
        la      r7, two
        jal     open
        nop
        li      r5, 3
        la      r7, three
        jal     open
        nop
        li      r5, 1
        jal     deliver
        nop
        j       done
        nop
one:    li      r20, 'a'
        li      r4, 'A'
        jal     letter
        nop
        li      r5, 2
        jal     deliver
        nop
        j       last
        move    r4, r20
two:    li      r20, 'b'
        li      r4, 'B'
        jal     letter
        nop
        li      r5, 3
        jal     deliver
        nop
        j       last
        move    r4, r20
three:  li      r4, 'C'
last:   jal     letter
        nop
        j       back
        nop
";
    says(&rt, TEXT, b"ABCba", ENDS);
}

// A function that delivers its own event is entered eight times, and the ninth frame is one too many. r31 is behind its `jal deliver`.
#[test]
fn a_ninth_frame_stops(rt: HostRuntime) {
    const TEXT: &[u8] = b"
start:  j       begin
        nop
function:                               # 80010008h
        li      r4, 'F'
        jal     letter
        nop
        li      r5, 4
        jal     deliver                 # 80010018h
        nop
begin:  li      r5, 4
        li      r6, 0x1000
        la      r7, function
        jal     open
        nop
        li      r5, 4
        jal     deliver
        nop
        j       done
        nop
";
    says(&rt, TEXT, b"FFFFFFFF", b" Deep 80010020\n");
}

// ReturnFromException in a function: the caller goes on, and the events behind it stay busy.
#[test]
fn the_tasks_of_a_frame_are_dropped(rt: HostRuntime) {
    const TEXT: &[u8] = b"
start:  li      r5, 4
        li      r6, 0x1000
        la      r7, function
        jal     open
        nop
        li      r5, 4
        li      r6, 0x2000
        jal     open
        nop
        li      r20, 0x1234
        li      r5, 4
        jal     deliver
        nop
        move    r2, r20
        jal     say
        nop
        li      r4, 0xF1000001
        jal     test
        nop
        j       done
        nop
function:
        li      r20, 1
        li      r9, 0x17                # ReturnFromException
        jal     b
        nop
";
    says(&rt, TEXT, b"00001234\n00000000\n", ENDS);
}

#[test]
fn without_a_frame_a_return_stops(rt: HostRuntime) {
    const TEXT: &[u8] = b"
start:  li      r9, 0x17                # ReturnFromException
        li      r31, 0x12345678
        li      r10, 0xB0
        jr      r10
        nop
";
    says(&rt, TEXT, b"", b" BadReturn 12345678\n");
    says(
        &rt,
        b"
start:  li      r31, 0x12345678
        li      r10, 0xE0
        jr      r10
        nop
",
        b"",
        b" BadReturn 12345678\n",
    );
}

// Two functions, the second one called from the first, name a thread. It is taken up when both have returned, and changes back; the program then has what it had.
const CHANGES: &[u8] = b"
start:  li      r6, 0x1000
        li      r5, 1
        la      r7, outer
        jal     open
        nop
        li      r5, 2
        la      r7, inner
        jal     open
        nop
        la      r4, thread
        li      r5, 0x80110000
        li      r6, 0x1234
        li      r9, 0x0E                # OpenThread
        jal     b
        nop
        li      r20, 'M'
        li      r5, 1
        jal     deliver
        nop
        move    r4, r20
        jal     letter
        nop
        j       done
        nop
outer:  li      r5, 2
        jal     deliver
        nop
        li      r4, 'O'
        jal     letter
        nop
        j       back
        nop
thread: li      r20, 0
        move    r2, r28
        jal     say
        nop
        li      r4, 0xFF000000
        li      r9, 0x10                # ChangeThread
        jal     b
        nop
inner:
";

fn changes<R: AllocGlobal + Abort>(rt: &R, inner: &[u8], tty: &[u8], stop: &[u8]) {
    let mut text = Vec::new(rt.alloc());
    text.extend_from_slice(CHANGES).expect(rt, "room");
    text.extend_from_slice(inner).expect(rt, "room");
    says(rt, &text, tty, stop);
}

#[test]
fn a_thread_that_a_function_names_is_taken_up_behind_the_last_frame(rt: HostRuntime) {
    const TEXT: &[u8] = b"
        li      r4, 0xFF000001
        li      r9, 0x10                # ChangeThread answers 1
        jal     b
        nop
        jal     say
        nop
        j       back
        nop
";
    changes(&rt, TEXT, b"00000001\nO00001234\nM", ENDS);
}

// Where it names the running thread last, the program goes on.
#[test]
fn the_running_thread_may_be_named(rt: HostRuntime) {
    const TEXT: &[u8] = b"
        li      r4, 0xFF000001
        li      r9, 0x10
        jal     b
        nop
        li      r4, 0xFF000000
        li      r9, 0x10
        jal     b
        nop
        jal     say
        nop
        j       back
        nop
";
    changes(&rt, TEXT, b"00000001\nOM", ENDS);
}

// A thread that is closed is no thread in a function either.
#[test]
fn a_closed_thread_is_not_named(rt: HostRuntime) {
    const TEXT: &[u8] = b"
        li      r4, 0xFF000001
        li      r9, 0x0F                # CloseThread
        jal     b
        nop
        li      r4, 0xFF000001
        li      r9, 0x10
        li      r31, 0x80010000
        li      r10, 0xB0
        jr      r10
        nop
";
    changes(&rt, TEXT, b"", b" BadThread FF000001 80010000\n");
}
