//! The calls on memory, texts and random numbers, each made by a program on the image.
use crate::hosts::{runs_to, shows};
use psx_base::Out;
use test_hosts::stands_in;

#[test]
fn toupper_changes_the_small_letters_of_the_low_byte(rt: HostRuntime) {
    const TEXT: &[u8] = b"
start:
        li      r10, 0xA0
        li      r9, 0x25                # toupper
        li      r4, 0x1161              # the low byte is a small a
        jalr    r31, r10
        nop
        move    r16, r2
        li      r4, 'z'
        jalr    r31, r10
        nop
        sll     r16, r16, 8
        addu    r16, r16, r2
        li      r4, '{'                 # the byte behind z
        jalr    r31, r10
        nop
        sll     r16, r16, 8
        addu    r16, r16, r2
        li      r4, 0xE1                # no ASCII
        jalr    r31, r10
        nop
        sll     r16, r16, 8
        addu    r4, r16, r2
        li      r9, 0x06                # exit
        jr      r10
        nop
";
    shows(&rt, TEXT, b"", b" Exit 415A7BE1\n");
}

#[test]
fn strlen_counts_the_bytes_before_the_zero(rt: HostRuntime) {
    const TEXT: &[u8] = b"
start:
        la      r4, text
        li      r9, 0x1B                # strlen
        li      r10, 0xA0
        jalr    r31, r10
        nop
        move    r4, r2
        li      r9, 0x06                # exit
        jr      r10
        nop

text:   .asciiz \"a text\"
";
    shows(&rt, TEXT, b"", b" Exit 00000006\n");
}

#[test]
fn strlen_stops_where_user_memory_ends_before_the_zero(rt: HostRuntime) {
    const TEXT: &[u8] = b"
start:
        li      r4, 0x801FFFFF          # two words; the last byte of main memory
        li      r9, 1
        sb      r9, 0(r4)
        li      r9, 0x1B                # strlen
        li      r10, 0xA0
        jalr    r31, r10                # at 80010018h, so r31 is 80010020h
        nop
";
    shows(&rt, TEXT, b"", b" BadPointer 80200000 80010020\n");
}

#[test]
fn strlen_reads_the_last_byte_of_user_memory(rt: HostRuntime) {
    const TEXT: &[u8] = b"
start:
        li      r10, 0xA0
        li      r9, 0x1B                # strlen
        li      r4, 0x801FFFFF          # the last byte of main memory
        sb      r0, 0(r4)
        jalr    r31, r10
        li      r2, 5
        move    r16, r2
        li      r4, 0x1F8003FF          # the last byte of the scratchpad
        sb      r0, 0(r4)
        jalr    r31, r10
        li      r2, 5
        or      r4, r16, r2
        li      r9, 0x06                # exit
        jr      r10
        nop
";
    shows(&rt, TEXT, b"", b" Exit 00000000\n");
}

#[test]
fn strlen_stops_at_an_address_that_is_not_user_memory(rt: HostRuntime) {
    const TEXT: &[u8] = b"
start:
        li      r4, 0xFFFF              # the last byte of the kernel's memory
        li      r9, 0x1B                # strlen
        li      r10, 0xA0
        jalr    r31, r10                # at 8001000Ch, so r31 is 80010014h
        nop
";
    shows(&rt, TEXT, b"", b" BadPointer 0000FFFF 80010014\n");
}

// A byte that was written by this very copy is read again.
#[test]
fn memcpy_copies_byte_by_byte_rising(rt: HostRuntime) {
    const TEXT: &[u8] = b"
start:
        la      r5, text
        addiu   r4, r5, 1
        li      r6, 5
        li      r9, 0x2A                # memcpy
        li      r10, 0xA0
        jalr    r31, r10
        nop
        la      r4, text
        li      r9, 0x3E                # puts
        jalr    r31, r10
        nop
        li      r4, 0
        li      r9, 0x06                # exit
        jr      r10
        nop

text:   .asciiz \"abcdef\"
";
    shows(&rt, TEXT, b"aaaaaa", b" Exit 00000000\n");
}

// The source's bad address comes before the destination's, where both end at the same byte; what was copied before stands.
#[test]
fn memcpy_names_the_source_before_the_destination(rt: HostRuntime) {
    const TEXT: &[u8] = b"
start:
        li      r8, 0x1F8003FE          # two words
        li      r9, 0x4241
        sh      r9, 0(r8)
        li      r4, 0x801FFFFE          # two words
        move    r5, r8
        li      r6, 5
        li      r9, 0x2A                # memcpy
        li      r10, 0xA0
        jalr    r31, r10                # at 80010028h, so r31 is 80010030h
        nop
";
    let host = runs_to(&rt, TEXT, b"", b" BadPointer 1F800400 80010030\n");
    let end = host.sent(Out::Ram).get(0x1F_FFFE..0x20_0000);
    assert!(rt; end.expect(&rt, "main memory") == b"AB".as_slice());
}

#[test]
fn rand_begins_with_16838_and_5758_behind_srand_of_1(rt: HostRuntime) {
    const TEXT: &[u8] = b"
start:
        li      r10, 0xA0
        li      r4, 1
        li      r9, 0x30                # srand
        jalr    r31, r10
        nop
        li      r9, 0x2F                # rand
        jalr    r31, r10
        nop
        sll     r16, r2, 16
        jalr    r31, r10
        nop
        or      r4, r16, r2             # 16838 is 41C6h, 5758 is 167Eh
        li      r9, 0x06                # exit
        jr      r10
        nop
";
    shows(&rt, TEXT, b"", b" Exit 41C6167E\n");
}

#[test]
fn memset_writes_up_to_the_end_of_memory_and_stops(rt: HostRuntime) {
    const TEXT: &[u8] = b"
start:
        li      r4, 0x801FFFFE          # two words
        li      r5, 0x141               # its low byte is written
        li      r6, 4
        li      r9, 0x2B                # memset
        li      r10, 0xA0
        jalr    r31, r10                # at 80010018h, so r31 is 80010020h
        nop
";
    let host = runs_to(&rt, TEXT, b"", b" BadPointer 80200000 80010020\n");
    let end = host.sent(Out::Ram).get(0x1F_FFFD..0x20_0000);
    assert!(rt; end.expect(&rt, "main memory") == b"\0AA".as_slice());
}

#[test]
fn memchr_finds_the_first_of_the_bytes(rt: HostRuntime) {
    const TEXT: &[u8] = b"
start:
        la      r4, text
        li      r5, 0x163               # the byte 'c'
        li      r6, 6
        li      r9, 0x2E                # memchr
        li      r10, 0xA0
        jalr    r31, r10
        nop
        sub     r16, r2, r4             # 2
        li      r6, 2                   # it isn't among the first two
        jalr    r31, r10
        nop
        add     r4, r16, r2
        li      r9, 0x06                # exit
        jr      r10
        nop

text:   .asciiz \"abcabc\"
";
    shows(&rt, TEXT, b"", b" Exit 00000002\n");
}

// Each answers 0 and touches nothing: r2 is 5 before each call, and r16 gathers the answers.
#[test]
fn each_call_answers_0_for_the_pointer_0(rt: HostRuntime) {
    const TEXT: &[u8] = b"
start:
        li      r10, 0xA0
        li      r16, 0
        li      r6, 4
        la      r17, start
        li      r4, 0
        li      r9, 0x1B                # strlen(0)
        jalr    r31, r10
        li      r2, 5
        or      r16, r16, r2
        li      r5, 'A'
        li      r9, 0x2B                # memset(0, 'A', 4)
        jalr    r31, r10
        li      r2, 5
        or      r16, r16, r2
        li      r9, 0x2E                # memchr(0, 'A', 4)
        jalr    r31, r10
        li      r2, 5
        or      r16, r16, r2
        li      r9, 0x3E                # puts(0)
        jalr    r31, r10
        li      r2, 5
        or      r16, r16, r2
        move    r5, r17
        li      r9, 0x2A                # memcpy(0, start, 4)
        jalr    r31, r10
        li      r2, 5
        or      r16, r16, r2
        move    r4, r17
        li      r5, 0
        jalr    r31, r10                # memcpy(start, 0, 4)
        li      r2, 5
        or      r4, r16, r2
        li      r9, 0x06                # exit
        jr      r10
        nop
";
    shows(&rt, TEXT, b"", b" Exit 00000000\n");
}

// r2 is the answer, k0 (r26) the address returned to, k1 (r27) 0, and all others are kept, HI and LO too.
#[test]
fn memset_keeps_all_other_registers(rt: HostRuntime) {
    const TEXT: &[u8] = b"
start:
        li      r1, 7777
        mthi    r1
        li      r1, 6666
        mtlo    r1
        li      r1, 0x101
        li      r2, 0x102
        li      r3, 0x103
        li      r4, 0x1F800000          # the destination
        li      r5, 0x105
        li      r6, 6
        li      r7, 0x107
        li      r8, 0x108
        li      r9, 0x2B                # memset
        li      r10, 0xA0
        li      r11, 0x10B
        li      r12, 0x10C
        li      r13, 0x10D
        li      r14, 0x10E
        li      r15, 0x10F
        li      r16, 0x110
        li      r17, 0x111
        li      r18, 0x112
        li      r19, 0x113
        li      r20, 0x114
        li      r21, 0x115
        li      r22, 0x116
        li      r23, 0x117
        li      r24, 0x118
        li      r25, 0x119
        li      r28, 0x11C
        li      r29, 0x11D
        li      r30, 0x11E
        jalr    r31, r10                # at 80010080h, so r31 is 80010088h
        nop
        li      r4, 0
        li      r9, 0x06                # exit
        jr      r10
        nop
";
    let host = runs_to(&rt, TEXT, b"", b" Exit 00000000\n");
    let shown =
        b" 80010088 00000401 00001E61 00001A0A 00000101 1F800000 00000103 1F800000 00000105 00000006 00000107 00000108 0000002B 000000A0 \
0000010B 0000010C 0000010D 0000010E 0000010F 00000110 00000111 00000112 00000113 00000114 00000115 00000116 00000117 00000118 00000119 \
80010088 00000000 0000011C 0000011D 0000011E 80010088\n";
    assert!(rt; stands_in(host.sent(Out::Trace), shown));
    let scratchpad = host.sent(Out::Ram).get(0x20_0000..0x20_0007);
    assert!(rt; scratchpad.expect(&rt, "scratchpad") == b"\x05\x05\x05\x05\x05\x05\0".as_slice());
}
