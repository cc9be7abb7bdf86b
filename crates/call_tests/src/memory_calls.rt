//! The calls that copy, compare and clear bytes, each made by a program on the image.
use crate::hosts::{runs_to, shows};
use psx_base::Out;

// The text is moved one byte up, then another one two bytes down, so that each byte is one that it was before. Each answers where to.
#[test]
fn memmove_copies_what_was_there_in_both_directions(rt: HostRuntime) {
    const TEXT: &[u8] = b"
start:
        li      r10, 0xA0
        la      r5, up
        addiu   r4, r5, 1
        li      r6, 5
        li      r9, 0x2C                # memmove(up + 1, up, 5)
        jalr    r31, r10
        nop
        sub     r16, r2, r5             # 1
        la      r4, down
        addiu   r5, r4, 2
        li      r6, 4
        jalr    r31, r10                # memmove(down, down + 2, 4)
        nop
        sub     r17, r2, r4             # 0
        la      r4, up
        li      r9, 0x3E                # puts
        jalr    r31, r10
        nop
        la      r4, down
        jalr    r31, r10
        nop
        sll     r16, r16, 8
        or      r4, r16, r17
        li      r9, 0x06                # exit
        jr      r10
        nop

up:     .asciiz \"abcdef\"
down:   .asciiz \"abcdef\"
";
    shows(&rt, TEXT, b"aabcdecdefef", b" Exit 00000100\n");
}

// The three segments have the same memory: the ranges overlap, though the addresses are far from each other.
#[test]
fn memmove_sees_an_overlap_by_two_segments(rt: HostRuntime) {
    const TEXT: &[u8] = b"
start:
        li      r10, 0xA0
        li      r9, 0x2C                # memmove
        li      r6, 5
        la      r5, first               # the cached segment
        li      r8, 0x80000000
        sub     r4, r5, r8
        addiu   r4, r4, 1               # the lowest one
        jalr    r31, r10
        nop
        la      r5, second
        li      r8, 0x20000000
        addu    r4, r5, r8
        addiu   r4, r4, 1               # the uncached one
        jalr    r31, r10
        nop
        la      r4, third
        addu    r5, r4, r8
        addiu   r5, r5, 1
        jalr    r31, r10
        nop
        la      r4, first
        li      r9, 0x3E                # puts
        jalr    r31, r10
        nop
        la      r4, second
        jalr    r31, r10
        nop
        la      r4, third
        jalr    r31, r10
        nop
        li      r4, 0
        li      r9, 0x06                # exit
        jr      r10
        nop

first:  .asciiz \"abcdef\"
second: .asciiz \"abcdef\"
third:  .asciiz \"abcdef\"
";
    shows(&rt, TEXT, b"aabcdeaabcdebcdeff", b" Exit 00000000\n");
}

// No byte is written where one of the source isn't user memory: the first bytes of the scratchpad stay 0.
#[test]
fn memmove_tests_the_whole_source_first(rt: HostRuntime) {
    const TEXT: &[u8] = b"
start:
        li      r5, 0x801FFFF0          # two words; 16 bytes are user memory
        li      r8, 0x41
        sb      r8, 0(r5)
        li      r4, 0x1F800000          # one word
        li      r6, 32
        li      r9, 0x2C                # memmove
        li      r10, 0xA0
        jalr    r31, r10                # at 80010020h, so r31 is 80010028h
        nop
";
    let host = runs_to(&rt, TEXT, b"", b" BadPointer 80200000 80010028\n");
    let scratchpad = host.sent(Out::Ram).get(0x20_0000..0x20_0004);
    assert!(rt; scratchpad.expect(&rt, "scratchpad") == b"\0\0\0\0".as_slice());
}

// Nor where one of the destination isn't: the last two bytes of main memory stay 0.
#[test]
fn memmove_tests_the_whole_destination_before_it_writes(rt: HostRuntime) {
    const TEXT: &[u8] = b"
start:
        li      r4, 0x801FFFFE          # two words
        la      r5, start               # two words
        li      r6, 4
        li      r9, 0x2C                # memmove
        li      r10, 0xA0
        jalr    r31, r10                # at 8001001Ch, so r31 is 80010024h
        nop
";
    let host = runs_to(&rt, TEXT, b"", b" BadPointer 80200000 80010024\n");
    let end = host.sent(Out::Ram).get(0x1F_FFFE..0x20_0000);
    assert!(rt; end.expect(&rt, "main memory") == b"\0\0".as_slice());
}

// The source comes first, though the destination ends earlier.
#[test]
fn memmove_names_the_source_before_the_destination(rt: HostRuntime) {
    const TEXT: &[u8] = b"
start:
        li      r4, 0x801FFFFF          # two words
        li      r5, 0x9F8003FC          # two words
        li      r6, 5
        li      r9, 0x2C                # memmove
        li      r10, 0xA0
        jalr    r31, r10                # at 8001001Ch, so r31 is 80010024h
        nop
";
    shows(&rt, TEXT, b"", b" BadPointer 9F800400 80010024\n");
}

// Bytes have no sign, and a difference has: 80h less 01h is 7Fh, and the other way round it is -7Fh.
#[test]
fn memcmp_and_bcmp_answer_the_first_difference(rt: HostRuntime) {
    const TEXT: &[u8] = b"
start:
        li      r10, 0xA0
        la      r4, high
        la      r5, low
        li      r6, 4
        li      r9, 0x2D                # memcmp(high, low, 4)
        jalr    r31, r10
        nop
        move    r16, r2                 # 0000007F
        move    r8, r4
        move    r4, r5
        move    r5, r8
        li      r9, 0x29                # bcmp(low, high, 4)
        jalr    r31, r10
        nop
        sll     r2, r2, 8               # FFFF8100
        addu    r16, r16, r2
        li      r6, 2                   # the first two are the same
        jalr    r31, r10
        nop
        addu    r4, r16, r2
        li      r9, 0x06                # exit
        jr      r10
        nop

high:   .byte   0x61, 0x62, 0x80, 0x00
low:    .byte   0x61, 0x62, 0x01, 0xFF
";
    shows(&rt, TEXT, b"", b" Exit FFFF817F\n");
}

// Both last bytes of user memory are read, and none behind them.
#[test]
fn memcmp_reads_nothing_behind_the_byte_that_decides(rt: HostRuntime) {
    const TEXT: &[u8] = b"
start:
        li      r10, 0xA0
        li      r8, 3
        li      r4, 0x801FFFFF          # the last byte of main memory
        sb      r8, 0(r4)
        li      r5, 0x9F8003FF          # the last byte of the scratchpad
        li      r6, 100
        li      r9, 0x2D                # memcmp
        jalr    r31, r10
        nop
        move    r4, r2
        li      r9, 0x06                # exit
        jr      r10
        nop
";
    shows(&rt, TEXT, b"", b" Exit 00000003\n");
}

#[test]
fn memcmp_stops_where_user_memory_ends(rt: HostRuntime) {
    const FIRST: &[u8] = b"
start:
        li      r4, 0x801FFFFF          # two words
        li      r5, 0x9F8003FF          # two words; both bytes are 0
        li      r6, 2
        li      r9, 0x2D                # memcmp
        li      r10, 0xA0
        jalr    r31, r10                # at 8001001Ch, so r31 is 80010024h
        nop
";
    const SECOND: &[u8] = b"
start:
        li      r4, 0x801FFFFE          # two words
        li      r5, 0x9F8003FF          # two words
        li      r6, 2
        li      r9, 0x29                # bcmp
        li      r10, 0xA0
        jalr    r31, r10                # at 8001001Ch, so r31 is 80010024h
        nop
";
    shows(&rt, FIRST, b"", b" BadPointer 80200000 80010024\n");
    shows(&rt, SECOND, b"", b" BadPointer 9F800400 80010024\n");
}

// The source stands first. A byte that was written by this very copy is read again, as memcpy does.
#[test]
fn bcopy_copies_from_its_first_argument_to_its_second(rt: HostRuntime) {
    const TEXT: &[u8] = b"
start:
        li      r10, 0xA0
        la      r4, text
        addiu   r5, r4, 2
        li      r6, 4
        li      r9, 0x27                # bcopy(text, text + 2, 4)
        jalr    r31, r10
        nop
        sub     r16, r2, r4             # 2
        la      r4, text
        li      r9, 0x3E                # puts
        jalr    r31, r10
        nop
        move    r4, r16
        li      r9, 0x06                # exit
        jr      r10
        nop

text:   .asciiz \"abcdef\"
";
    shows(&rt, TEXT, b"ababab", b" Exit 00000002\n");
}

// What was copied before the end of user memory stands.
#[test]
fn bcopy_stops_where_user_memory_ends(rt: HostRuntime) {
    const TEXT: &[u8] = b"
start:
        la      r4, text                # two words
        li      r5, 0x801FFFFE          # two words
        li      r6, 4
        li      r9, 0x27                # bcopy
        li      r10, 0xA0
        jalr    r31, r10                # at 8001001Ch, so r31 is 80010024h
        nop

text:   .asciiz \"abcd\"
";
    let host = runs_to(&rt, TEXT, b"", b" BadPointer 80200000 80010024\n");
    let end = host.sent(Out::Ram).get(0x1F_FFFE..0x20_0000);
    assert!(rt; end.expect(&rt, "main memory") == b"ab".as_slice());
}

#[test]
fn bzero_writes_zeros(rt: HostRuntime) {
    const TEXT: &[u8] = b"
start:
        li      r10, 0xA0
        la      r4, bytes
        addiu   r4, r4, 1
        li      r5, 2
        li      r6, 100                 # no argument
        li      r9, 0x28                # bzero(bytes + 1, 2)
        jalr    r31, r10
        nop
        sub     r16, r2, r4             # 0
        la      r8, bytes
        lw      r4, 0(r8)
        li      r9, 0x06                # exit
        jr      r10
        addu    r4, r4, r16

        .align  2
bytes:  .word   0x44332211
";
    shows(&rt, TEXT, b"", b" Exit 44000011\n");
}

#[test]
fn bzero_stops_where_user_memory_ends(rt: HostRuntime) {
    const TEXT: &[u8] = b"
start:
        li      r4, 0x9F8003FD          # two words
        li      r8, 0x11
        sb      r8, -1(r4)
        sb      r8, 0(r4)
        sb      r8, 2(r4)               # the last byte of the scratchpad
        li      r5, 4
        li      r9, 0x28                # bzero
        li      r10, 0xA0
        jalr    r31, r10                # at 80010024h, so r31 is 8001002Ch
        nop
";
    let host = runs_to(&rt, TEXT, b"", b" BadPointer 9F800400 8001002C\n");
    let end = host.sent(Out::Ram).get(0x20_03FC..0x20_0400);
    assert!(rt; end.expect(&rt, "scratchpad") == b"\x11\0\0\0".as_slice());
}

// A count of 0, and one of -1, are no bytes: no address is looked at, and bcopy, bzero and memmove answer where to, memcmp and bcmp 0.
#[test]
fn a_count_of_0_or_less_is_no_bytes(rt: HostRuntime) {
    const TEXT: &[u8] = b"
start:
        li      r10, 0xA0
        li      r16, 0
        li      r6, 0
again:  li      r4, 0x100               # the kernel's memory
        li      r5, 0x200
        li      r9, 0x2C                # memmove(100h, 200h, n)
        jalr    r31, r10
        nop
        addu    r16, r16, r2            # 100h
        li      r9, 0x27                # bcopy(100h, 200h, n)
        jalr    r31, r10
        nop
        addu    r16, r16, r2            # 200h
        li      r9, 0x2D                # memcmp(100h, 200h, n)
        jalr    r31, r10
        li      r2, 5
        addu    r16, r16, r2            # 0
        li      r9, 0x29                # bcmp(100h, 200h, n)
        jalr    r31, r10
        li      r2, 5
        addu    r16, r16, r2            # 0
        move    r5, r6
        li      r9, 0x28                # bzero(100h, n)
        jalr    r31, r10
        nop
        addu    r16, r16, r2            # 100h
        addiu   r6, r6, -1
        li      r8, -2
        bne     r6, r8, again
        nop
        move    r4, r16
        li      r9, 0x06                # exit
        jr      r10
        nop
";
    shows(&rt, TEXT, b"", b" Exit 00000800\n");
}

// Each answers 0 and touches nothing: r2 is 5 before each call, and r16 gathers the answers.
#[test]
fn a_pointer_0_answers_0(rt: HostRuntime) {
    const TEXT: &[u8] = b"
start:
        li      r10, 0xA0
        li      r16, 0
        li      r6, 4
        li      r4, 0
        li      r5, 0x100               # the kernel's memory
        li      r9, 0x28                # bzero(0, 100h)
        jalr    r31, r10
        li      r2, 5
        or      r16, r16, r2
        li      r17, 2                  # once for each of the two pointers
again:  li      r9, 0x27                # bcopy
        jalr    r31, r10
        li      r2, 5
        or      r16, r16, r2
        li      r9, 0x29                # bcmp
        jalr    r31, r10
        li      r2, 5
        or      r16, r16, r2
        li      r9, 0x2C                # memmove
        jalr    r31, r10
        li      r2, 5
        or      r16, r16, r2
        li      r9, 0x2D                # memcmp
        jalr    r31, r10
        li      r2, 5
        or      r16, r16, r2
        move    r4, r5
        li      r5, 0
        addiu   r17, r17, -1
        bne     r17, r0, again
        nop
        move    r4, r16
        li      r9, 0x06                # exit
        jr      r10
        nop
";
    shows(&rt, TEXT, b"", b" Exit 00000000\n");
}
