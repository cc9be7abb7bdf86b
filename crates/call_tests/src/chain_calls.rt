//! The calls on chains of interrupt handlers, made by programs on the image.
use crate::said::{has, ran, says};
use psx_base::Out;
use std::process::Abort;

// Two elements of chain 1: the second is the head, and its first word names the other.
#[test]
fn an_element_becomes_the_head(rt: HostRuntime) {
    const TEXT: &[u8] = b"
start:
        li      r4, 1
        li      r5, 0x80018000
        li      r9, 0x02                # SysEnqIntRP
        jal     c
        nop
        jal     say
        nop
        li      r4, 1
        li      r5, 0x801FFFF4          # the last one that fits
        li      r9, 0x02
        jal     c
        nop
        jal     say
        nop
        lui     r20, 0x8002
        lw      r2, -12(r20)            # at 8001FFF4h, which nothing writes
        nop
        jal     say
        nop
        li      r20, 0x801FFFF4
        lw      r2, 0(r20)
        nop
        jal     say
        nop
        li      r20, 0x80018000
        lw      r2, 0(r20)
        nop
        jal     say
        nop
";
    let host = ran(&rt, TEXT, b"", b" Exit 00000000\n");
    assert_eq!(rt;
        host.sent(Out::Tty),
        b"00000000\n00000000\n00000000\n80018000\n00000000\n".as_slice()
    );
    has(
        &rt,
        &host,
        0xCF40,
        b"\x02\0\0\0\0\x80\x01\x80\xF4\xFF\x1F\x80\0\0\0\0",
    );
}

// It puts three elements in chain 0, the first of them again, takes one out and says the answer; r20 is what is taken.
const TAKE: &[u8] = b"
        li      r21, 0x80018000
        jal     enq
        nop
        li      r21, 0x80018010
        jal     enq
        nop
        li      r21, 0x80018000
        jal     enq
        nop
        li      r21, 0x80018020
        jal     enq
        nop
        jal     deq
        nop
        beq     r0, r0, done
        nop
enq:    li      r4, 0
        move    r5, r21
        li      r9, 0x02                # SysEnqIntRP
        beq     r0, r0, c
        nop
deq:    move    r24, r31
        li      r4, 0
        move    r5, r20
        li      r9, 0x03                # SysDeqIntRP
        jal     c
        nop
        jal     say
        nop
        jr      r24
        nop
";

fn takes<R: AllocGlobal + Abort>(rt: &R, element: &[u8], answer: &[u8], chain: &[u8]) {
    let mut text = Vec::new(rt.alloc());
    text.extend_from_slice(b"        .org    0x80010000\nstart:\n")
        .expect(rt, "room");
    text.extend_from_slice(element).expect(rt, "room");
    text.extend_from_slice(TAKE).expect(rt, "room");
    let host = ran(rt, &text, b"", b" Exit 00000000\n");
    assert_eq!(rt; host.sent(Out::Tty), answer);
    has(rt, &host, 0xCF00, chain);
}

// The first element from the head on that is equal is taken out, and the others stay in their order, the head last.
#[test]
fn the_first_equal_element_is_taken_out(rt: HostRuntime) {
    takes(
        &rt,
        b"        li      r20, 0x80018000\n",
        b"00000000\n",
        b"\x03\0\0\0\0\x80\x01\x80\x10\x80\x01\x80\x20\x80\x01\x80",
    );
    takes(
        &rt,
        b"        li      r20, 0x80018020\n",
        b"00000000\n",
        b"\x03\0\0\0\0\x80\x01\x80\x10\x80\x01\x80\0\x80\x01\x80",
    );
    takes(
        &rt,
        b"        li      r20, 0x80018010\n",
        b"00000000\n",
        b"\x03\0\0\0\0\x80\x01\x80\0\x80\x01\x80\x20\x80\x01\x80",
    );
}

// The same memory by another segment is another element.
#[test]
fn an_element_that_is_not_there_is_not_taken(rt: HostRuntime) {
    takes(
        &rt,
        b"        li      r20, 0x00018010\n",
        b"FFFFFFFF\n",
        b"\x04\0\0\0\0\x80\x01\x80\x10\x80\x01\x80\0\x80\x01\x80\x20\x80\x01\x80",
    );
}

// Eight elements, a ninth, chain 4, and nothing more to take.
#[test]
fn a_chain_has_eight_elements(rt: HostRuntime) {
    const TEXT: &[u8] = b"
start:
        li      r20, 9
more:   li      r4, 3
        li      r5, 0x80018000
        li      r9, 0x02                # SysEnqIntRP
        jal     c
        nop
        jal     say
        nop
        addiu   r20, r20, -1
        bne     r20, r0, more
        nop
        li      r4, 4
        li      r5, 1                   # no chain: the element isn't looked at
        li      r9, 0x02
        jal     c
        nop
        jal     say
        nop
        li      r4, 4
        li      r5, 0x80018000
        li      r9, 0x03                # SysDeqIntRP
        jal     c
        nop
        jal     say
        nop
        li      r20, 9
take:   li      r4, 3
        li      r5, 0x80018000
        li      r9, 0x03
        jal     c
        nop
        jal     say
        nop
        addiu   r20, r20, -1
        bne     r20, r0, take
        nop
";
    says(
        &rt,
        TEXT,
        b"",
        b"00000000\n00000000\n00000000\n00000000\n00000000\n00000000\n00000000\n00000000\nFFFFFFFF\nFFFFFFFF\nFFFFFFFF\n\
00000000\n00000000\n00000000\n00000000\n00000000\n00000000\n00000000\n00000000\nFFFFFFFF\n",
    );
}

// The three words are tested in rising order; an address that is no multiple of 4 is bad as it stands.
#[test]
fn a_bad_element_stops(rt: HostRuntime) {
    let cases = [
        (
            b"        li      r5, 0x801FFFF8\n".as_slice(),
            b" BadPointer 80200000 80010018\n".as_slice(),
        ),
        (
            b"        li      r5, 0x801FFFFC\n",
            b" BadPointer 80200000 80010018\n",
        ),
        (
            b"        li      r5, 0x80018002\n",
            b" BadPointer 80018002 80010018\n",
        ),
        (
            b"        li      r5, 0x8000FFFC\n",
            b" BadPointer 8000FFFC 80010018\n",
        ),
        (
            b"        li      r5, 0xFFFFFFFC\n",
            b" BadPointer FFFFFFFC 80010018\n",
        ),
    ];
    for (element, stop) in cases {
        let mut text = Vec::new(rt.alloc());
        text.extend_from_slice(b"start:\n        li      r4, 3\n")
            .expect(&rt, "room");
        text.extend_from_slice(element).expect(&rt, "room");
        text.extend_from_slice(b"        li      r9, 0x02\n        jal     c\n        nop\n")
            .expect(&rt, "room");
        let host = ran(&rt, &text, b"", stop);
        assert_eq!(rt; host.sent(Out::Tty), b"".as_slice());
    }
}
