//! How functions return by gate E0h and by ReturnFromException, one within another, in programs on the image.
use crate::delivered::{ENDS, says};

// A function that delivers its own event up to the eighth frame. Each return takes up the function that called: the numbers come back in the other order.
#[test]
fn eight_frames_return(rt: HostRuntime) {
    const TEXT: &[u8] = b"
start:  li      r5, 4
        li      r6, 0x1000
        la      r7, function
        jal     open
        nop
        li      r20, 'P'
        li      r5, 4
        jal     deliver
        nop
        jal     letter
        move    r4, r20
        j       done
        nop
function:
        la      r8, word
        lw      r20, 0(r8)
        nop
        addiu   r20, r20, 1
        sw      r20, 0(r8)
        jal     letter
        addiu   r4, r20, '0'
        sltiu   r8, r20, 8
        beq     r8, r0, last
        nop
        li      r5, 4
        jal     deliver
        nop
last:   jal     letter
        addiu   r4, r20, '0'
        j       back
        nop
        .align  4
word:   .word   0
";
    says(&rt, TEXT, b"1234567887654321P", ENDS);
}

// ReturnFromException in the second of two functions takes up the first one, and drops the second's scan alone: the event behind it stays busy, and the one behind the first becomes ready.
#[test]
fn the_innermost_frame_alone_is_dropped(rt: HostRuntime) {
    const TEXT: &[u8] = b"
start:  li      r6, 0x1000
        li      r5, 1
        la      r7, outer
        jal     open
        nop
        li      r5, 2
        la      r7, inner
        jal     open
        nop
        li      r6, 0x2000
        li      r5, 1
        jal     open
        nop
        li      r5, 2
        jal     open
        nop
        li      r20, 'P'
        li      r5, 1
        jal     deliver
        nop
        jal     letter
        move    r4, r20
        li      r4, 0xF1000002
        jal     test
        nop
        li      r4, 0xF1000003
        jal     test
        nop
        j       done
        nop
outer:  li      r20, 'O'
        li      r5, 2
        jal     deliver
        nop
        jal     letter
        move    r4, r20
        j       back
        nop
inner:  li      r20, 'I'
        jal     letter
        move    r4, r20
        li      r9, 0x17                # ReturnFromException
        jal     b
        nop
";
    says(&rt, TEXT, b"IOP00000001\n00000000\n", ENDS);
}

// What a function answers says nothing to a scan: the events behind it become ready, and the caller has its own r2.
#[test]
fn an_answer_does_not_end_a_scan(rt: HostRuntime) {
    const TEXT: &[u8] = b"
start:  li      r6, 0x1000
        li      r5, 4
        la      r7, zero
        jal     open
        nop
        li      r5, 4
        la      r7, other
        jal     open
        nop
        li      r6, 0x2000
        li      r5, 4
        jal     open
        nop
        li      r5, 4
        jal     deliver
        nop
        jal     say
        nop
        li      r4, 0xF1000002
        jal     test
        nop
        j       done
        nop
zero:   jal     letter
        li      r4, '0'
        li      r31, 0xE0
        jr      r31
        li      r2, 0
other:  jal     letter
        li      r4, 'F'
        li      r31, 0xE0
        jr      r31
        li      r2, 0xFFFF
";
    says(&rt, TEXT, b"0F00000000\n00000001\n", ENDS);
}

// Behind the last frame's return there is none: a second return by the gate stops.
#[test]
fn a_second_return_stops(rt: HostRuntime) {
    const TEXT: &[u8] = b"
start:  li      r5, 4
        li      r6, 0x1000
        la      r7, back
        jal     open
        nop
        li      r5, 4
        jal     deliver
        nop
        li      r31, 0xE0
        jr      r31
        nop
";
    says(&rt, TEXT, b"", b" BadReturn 000000E0\n");
}

// The same by ReturnFromException, which stops with its r31.
#[test]
fn a_second_return_from_an_exception_stops(rt: HostRuntime) {
    const TEXT: &[u8] = b"
start:  li      r5, 4
        li      r6, 0x1000
        la      r7, function
        jal     open
        nop
        li      r5, 4
        jal     deliver
        nop
        jal     letter
        li      r4, 'P'
        li      r9, 0x17                # ReturnFromException
        li      r31, 0x12345678
        li      r10, 0xB0
        jr      r10
        nop
function:
        li      r9, 0x17
        jal     b
        nop
";
    says(&rt, TEXT, b"P", b" BadReturn 12345678\n");
}
