//! OpenThread, CloseThread and ChangeThread, each made by a program on the image.
use crate::hosts::shows;
use std::process::Abort;

// It is stored with 1 in r2 and taken up again: LO and the other registers are as they were.
#[test]
fn a_thread_changes_to_itself(rt: HostRuntime) {
    const TEXT: &[u8] = b"
start:
        li      r10, 0xB0
        li      r5, 6
        li      r6, 7
        mult    r5, r6
        li      r4, 0xFF000000
        li      r9, 0x10                # ChangeThread
        jalr    r31, r10
        nop
        mflo    r7
        sll     r2, r2, 8
        or      r4, r2, r7
        li      r10, 0xA0
        li      r9, 0x06                # exit
        jr      r10
        nop
";
    shows(&rt, TEXT, b"", b" Exit 0000012A\n");
}

// BadThread names the handle as it is given, and r31.
#[test]
fn a_free_slot_is_closed_and_not_changed_to(rt: HostRuntime) {
    const TEXT: &[u8] = b"
start:
        li      r10, 0xB0
        li      r4, 0xFF000003
        li      r9, 0x0F                # CloseThread
        jalr    r31, r10
        nop
        li      r9, 0x10                # ChangeThread
        jalr    r31, r10
        nop
";
    shows(&rt, TEXT, b"", b" BadThread FF000003 80010024\n");
}

#[test]
fn the_running_thread_is_closed_and_goes_on(rt: HostRuntime) {
    const TEXT: &[u8] = b"
start:
        li      r10, 0xB0
        li      r4, 0xFF000000
        li      r9, 0x0F                # CloseThread
        jalr    r31, r10
        nop
        move    r4, r2
        li      r10, 0xA0
        li      r9, 0x06                # exit
        jr      r10
        nop
";
    shows(&rt, TEXT, b"", b" Exit 00000001\n");
}

// There are 4 threads.
#[test]
fn a_handle_behind_the_last_thread_stops(rt: HostRuntime) {
    const FIRST: &[u8] = b"
start:
        li      r10, 0xB0
        li      r4, 0xFF000004
        li      r9, 0x0F                # CloseThread
        jalr    r31, r10
        nop
";
    const SECOND: &[u8] = b"
start:
        li      r10, 0xB0
        li      r4, 0xFEFFFFFF
        li      r9, 0x10                # ChangeThread
        jalr    r31, r10
        nop
";
    shows(&rt, FIRST, b"", b" BadThread FF000004 80010018\n");
    shows(&rt, SECOND, b"", b" BadThread FEFFFFFF 80010018\n");
}

// Thread 1 multiplies, and changes back: the first thread has its own LO, 42, and r2 1.
#[test]
fn a_thread_is_opened_changed_to_and_changed_back(rt: HostRuntime) {
    const TEXT: &[u8] = b"
start:
        li      r10, 0xB0
        la      r4, other
        li      r5, 0x80100000
        li      r6, 0
        li      r9, 0x0E                # OpenThread
        jalr    r31, r10
        nop
        li      r5, 6
        li      r6, 7
        mult    r5, r6
        move    r4, r2
        li      r9, 0x10                # ChangeThread
        jalr    r31, r10
        nop
        mflo    r7
        sll     r2, r2, 8
        or      r4, r2, r7
        li      r10, 0xA0
        li      r9, 0x06                # exit
        jr      r10
        nop
other:
        li      r5, 100
        mult    r5, r5
        li      r10, 0xB0
        li      r4, 0xFF000000
        li      r9, 0x10                # ChangeThread
        jalr    r31, r10
        nop
";
    shows(&rt, TEXT, b"", b" Exit 0000012A\n");
}

// The running slot isn't taken, and a slot that is closed is taken again.
#[test]
fn the_handles_rise_until_no_slot_is_left(rt: HostRuntime) {
    const TEXT: &[u8] = b"
start:
        li      r10, 0xB0
        li      r7, 0
        li      r8, 4
more:
        li      r4, 0
        li      r9, 0x0E                # OpenThread
        jalr    r31, r10
        nop
        andi    r2, r2, 0xFF            # 1, 2, 3, FFh
        sll     r7, r7, 8
        or      r7, r7, r2
        addiu   r8, r8, -1
        bne     r8, r0, more
        nop
        move    r4, r7
        li      r10, 0xA0
        li      r9, 0x06                # exit
        jr      r10
        nop
";
    shows(&rt, TEXT, b"", b" Exit 010203FF\n");
}

// It begins at pc 0, which isn't user memory.
#[test]
fn a_thread_that_begins_at_0_stops(rt: HostRuntime) {
    const TEXT: &[u8] = b"
start:
        li      r10, 0xB0
        li      r4, 0
        li      r9, 0x0E                # OpenThread
        jalr    r31, r10
        nop
        move    r4, r2
        li      r9, 0x10                # ChangeThread
        jalr    r31, r10
        nop
";
    shows(&rt, TEXT, b"", b" UserFetch 00000000\n");
}

// All four slots are opened but one, and the last is closed, which answers 1. Changing to it then stops.
#[test]
fn a_thread_that_was_closed_is_a_bad_handle(rt: HostRuntime) {
    const TEXT: &[u8] = b"
start:
        li      r10, 0xB0
        la      r16, answers
        la      r17, answers_end
more:
        li      r9, 0x0E                # OpenThread
        jalr    r31, r10
        nop
        lw      r8, 0(r16)
        nop
        bne     r2, r8, wrong
        nop
        addiu   r16, r16, 4
        bne     r16, r17, more
        nop
        li      r4, 0xFF000003
        li      r9, 0x0F                # CloseThread
        jalr    r31, r10
        nop
        li      r8, 1
        bne     r2, r8, wrong
        nop
        li      r9, 0x10                # ChangeThread
        li      r31, 0x80018000
        jr      r10
        nop
wrong:
        li      r10, 0xA0
        li      r9, 0x06                # exit
        jr      r10
        nop
answers: .word  0xFF000001 0xFF000002 0xFF000003 0xFFFFFFFF
answers_end:
";
    shows(&rt, TEXT, b"", b" BadThread FF000003 80018000\n");
}

#[test]
fn closing_a_free_slot_answers_1(rt: HostRuntime) {
    const TEXT: &[u8] = b"
start:
        li      r10, 0xB0
        li      r4, 0xFF000002
        li      r9, 0x0F                # CloseThread
        jalr    r31, r10
        nop
        move    r4, r2
        li      r10, 0xA0
        li      r9, 0x06                # exit
        jr      r10
        nop
";
    shows(&rt, TEXT, b"", b" Exit 00000001\n");
}

// The running thread closes its own slot, which stays the running one's: the next slot is opened. From there the first slot is the lowest free one.
#[test]
fn the_running_slot_is_not_opened(rt: HostRuntime) {
    const TEXT: &[u8] = b"
start:
        li      r10, 0xB0
        li      r4, 0xFF000000
        li      r9, 0x0F                # CloseThread
        jalr    r31, r10
        nop
        la      r4, other
        li      r9, 0x0E                # OpenThread
        jalr    r31, r10
        nop
        li      r8, 0xFF000001
        bne     r2, r8, end
        move    r4, r2
        li      r9, 0x10                # ChangeThread
        jalr    r31, r10
        nop
other:
        li      r10, 0xB0
        li      r9, 0x0E                # OpenThread
        jalr    r31, r10
        nop
        move    r4, r2
end:
        li      r10, 0xA0
        li      r9, 0x06                # exit
        jr      r10
        nop
";
    shows(&rt, TEXT, b"", b" Exit FF000000\n");
}

// A caller whose slot is free isn't kept.
#[test]
fn a_free_running_slot_keeps_nothing(rt: HostRuntime) {
    const TEXT: &[u8] = b"
start:
        li      r10, 0xB0
        la      r4, other
        li      r9, 0x0E                # OpenThread
        jalr    r31, r10
        nop
        move    r16, r2
        li      r4, 0xFF000000
        li      r9, 0x0F                # CloseThread
        jalr    r31, r10
        nop
        move    r4, r16
        li      r9, 0x10                # ChangeThread
        jalr    r31, r10
        nop
other:
        li      r10, 0xB0
        li      r4, 0xFF000000
        li      r9, 0x10                # ChangeThread
        li      r31, 0x80018000
        jr      r10
        nop
";
    shows(&rt, TEXT, b"", b" BadThread FF000000 80018000\n");
}

// The first thread turns interrupts off. The other one begins with them on, and turns them off and on. Back in the first they are off still.
#[test]
fn each_thread_has_its_own_interrupts(rt: HostRuntime) {
    const TEXT: &[u8] = b"
start:
        li      r10, 0xB0
        la      r4, other
        li      r5, 0x80100000
        li      r9, 0x0E                # OpenThread
        jalr    r31, r10
        nop
        move    r16, r2
        li      r4, 1
        syscall                         # off
        move    r4, r16
        li      r9, 0x10                # ChangeThread
        jalr    r31, r10
        nop
        li      r4, 1
        syscall
        la      r8, was
        lw      r4, 0(r8)
        sll     r2, r2, 4
        or      r4, r4, r2              # 0 in the upper digit: they were off
        li      r10, 0xA0
        li      r9, 0x06                # exit
        jr      r10
        nop
other:
        li      r4, 1
        syscall
        la      r8, was
        sw      r2, 0(r8)               # 1: they were on
        li      r4, 2
        syscall
        li      r10, 0xB0
        li      r4, 0xFF000000
        li      r9, 0x10                # ChangeThread
        jalr    r31, r10
        nop
was:    .word   0
";
    shows(&rt, TEXT, b"", b" Exit 00000001\n");
}
