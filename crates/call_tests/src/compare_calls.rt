//! The calls that compare texts, find a byte and make small letters, each made by a program on the image.
use crate::hosts::shows;
use std::process::Abort;

// Makes the call of each row of five words: the number, three arguments, the answer. It exits with 0 where each answers so, else with the address behind the first row that doesn't.
// The last byte of main memory and that of the scratchpad are an x: a text without a zero.
const CALLS: &[u8] = b"
start:
        li      r8, 0x801FFFFF          # two words
        li      r9, 'x'
        sb      r9, 0(r8)
        li      r8, 0x1F8003FF          # two words
        sb      r9, 0(r8)
        la      r16, rows
        la      r17, rows_end
        li      r10, 0xA0
next:
        lw      r9, 0(r16)
        lw      r4, 4(r16)
        lw      r5, 8(r16)
        lw      r6, 12(r16)
        li      r2, 5
        jalr    r31, r10                # at 80010044h, so r31 is 8001004Ch
        nop
        lw      r18, 16(r16)
        addiu   r16, r16, 20
        bne     r2, r18, wrong
        nop
        bne     r16, r17, next
        nop
        li      r16, 0
wrong:
        move    r4, r16
        li      r9, 0x06                # exit
        jr      r10
        nop
";

// The texts of the rows.
const TEXTS: &[u8] = b"
rows_end:
abc:    .asciiz \"abc\"
same:   .asciiz \"abc\"
abd:    .asciiz \"abd\"
ab:     .asciiz \"ab\"
xy:     .asciiz \"xy\"
banana: .asciiz \"banana\"
empty:  .byte   0
high:   .byte   0xE1 0
low:    .byte   1 0
";

// Each row has its answer, or the last one stops.
fn rows<R: AllocGlobal + Abort>(rt: &R, rows: &[u8], stop: &[u8]) {
    let mut text = vec![in rt.alloc(); 0u8; 0].expect(rt, "room");
    text.extend_from_slice(CALLS).expect(rt, "room");
    text.extend_from_slice(rows).expect(rt, "room");
    text.extend_from_slice(TEXTS).expect(rt, "room");
    shows(rt, &text, b"", stop);
}

#[test]
fn strcmp_answers_the_difference_of_the_first_bytes_that_differ(rt: HostRuntime) {
    const TEXT: &[u8] = b"
rows:
        .word   0x17 abc same 0 0
        .word   0x17 abc abc 0 0
        .word   0x17 abc abd 0 0xFFFFFFFF
        .word   0x17 abd abc 0 1
        .word   0x17 ab abc 0 0xFFFFFF9D        # 0 less 'c'
        .word   0x17 abc ab 0 0x63
        .word   0x17 empty empty 0 0
        .word   0x17 empty abc 0 0xFFFFFF9F
        .word   0x17 abc empty 0 0x61
        .word   0x17 high abc 0 0x80            # bytes have no sign
        .word   0x17 abc high 0 0xFFFFFF80
        .word   0x17 low high 0 0xFFFFFF20
        .word   0x17 0x801FFFFF abc 0 0x17      # no byte is read behind those that differ
        .word   0x17 abc 0x801FFFFF 0 0xFFFFFFE9
        .word   0x17 0 abc 0 0
        .word   0x17 abc 0 0 0
        .word   0x17 0 0 0 0
        .word   0x17 0 0xFFFF 0 0
";
    rows(&rt, TEXT, b" Exit 00000000\n");
}

#[test]
fn strncmp_compares_so_many_bytes(rt: HostRuntime) {
    const TEXT: &[u8] = b"
rows:
        .word   0x18 abc abd 2 0
        .word   0x18 abc abd 3 0xFFFFFFFF
        .word   0x18 abd abc 0x7FFFFFFF 1
        .word   0x18 abc same 9 0               # the zero ends both
        .word   0x18 abc ab 3 0x63
        .word   0x18 empty abc 1 0xFFFFFF9F
        .word   0x18 empty empty 1 0
        .word   0x18 high abc 1 0x80
        .word   0x18 abc abd 0 0
        .word   0x18 abc high 0xFFFFFFFF 0
        .word   0x18 abc high 0x80000000 0
        .word   0x18 0xFFFF 0xFFFF 0 0          # no byte is read
        .word   0x18 0xFFFF 0xFFFF 0xFFFFFFFF 0
        .word   0x18 0x801FFFFF xy 1 0          # no more than so many
        .word   0x18 xy 0x1F8003FF 1 0
        .word   0x18 0 abc 3 0
        .word   0x18 abc 0 3 0
";
    rows(&rt, TEXT, b" Exit 00000000\n");
}

#[test]
fn strchr_and_index_find_the_first_byte(rt: HostRuntime) {
    const TEXT: &[u8] = b"
rows:
        .word   0x1E banana 'a' 0 banana+1
        .word   0x1C banana 'a' 0 banana+1
        .word   0x1E banana 'b' 0 banana
        .word   0x1C banana 'n' 0 banana+2
        .word   0x1E banana 'x' 0 0
        .word   0x1C banana 'x' 0 0
        .word   0x1E banana 0x161 0 banana+1    # the low byte is an a
        .word   0x1E banana 0 0 banana+6        # the zero
        .word   0x1C banana 0x100 0 banana+6
        .word   0x1E empty 'a' 0 0
        .word   0x1C empty 0 0 empty
        .word   0x1E high 0xE1 0 high
        .word   0x1E high 0xFFFFFFE1 0 high
        .word   0x1E 0x801FFFFF 'x' 0 0x801FFFFF
        .word   0x1C 0x1F8003FF 'x' 0 0x1F8003FF
        .word   0x1E 0 'a' 0 0
        .word   0x1C 0 0 0 0
";
    rows(&rt, TEXT, b" Exit 00000000\n");
}

#[test]
fn strrchr_and_rindex_find_the_last_byte(rt: HostRuntime) {
    const TEXT: &[u8] = b"
rows:
        .word   0x1F banana 'a' 0 banana+5
        .word   0x1D banana 'a' 0 banana+5
        .word   0x1F banana 'b' 0 banana
        .word   0x1D banana 'n' 0 banana+4
        .word   0x1F banana 'x' 0 0
        .word   0x1D banana 'x' 0 0
        .word   0x1F banana 0x16E 0 banana+4    # the low byte is an n
        .word   0x1F banana 0 0 banana+6        # the zero
        .word   0x1D banana 0x100 0 banana+6
        .word   0x1F empty 'a' 0 0
        .word   0x1D empty 0 0 empty
        .word   0x1F high 0xE1 0 high
        .word   0x1F high 0xFFFFFFE1 0 high
        .word   0x1F 0 'a' 0 0
        .word   0x1D 0 0 0 0
";
    rows(&rt, TEXT, b" Exit 00000000\n");
}

#[test]
fn memchr_looks_at_so_many_bytes(rt: HostRuntime) {
    const TEXT: &[u8] = b"
rows:
        .word   0x2E banana 'a' 6 banana+1
        .word   0x2E banana 'n' 2 0
        .word   0x2E banana 'n' 3 banana+2
        .word   0x2E banana 0x16E 0x7FFFFFFF banana+2
        .word   0x2E banana 0 7 banana+6        # a zero is a byte as each other
        .word   0x2E 0xFFFF 'a' 0 0             # no byte is read
        .word   0x2E 0xFFFF 'a' 0xFFFFFFFF 0
        .word   0x2E 0xFFFF 'a' 0x80000000 0
        .word   0x2E 0x801FFFFF 'x' 100 0x801FFFFF
        .word   0x2E 0x9F8003FF 'x' 100 0x9F8003FF
        .word   0x2E 0x801FFFFF 'y' 1 0
        .word   0x2E 0x1F8003FF 'y' 1 0
        .word   0x2E 0 'a' 3 0
";
    rows(&rt, TEXT, b" Exit 00000000\n");
}

#[test]
fn tolower_changes_the_capitals_of_the_low_byte(rt: HostRuntime) {
    const TEXT: &[u8] = b"
rows:
        .word   0x26 'A' 0 0 'a'
        .word   0x26 'Z' 0 0 'z'
        .word   0x26 '@' 0 0 '@'                # the byte before A
        .word   0x26 '[' 0 0 '['                # that behind Z
        .word   0x26 'm' 0 0 'm'
        .word   0x26 0x1142 0 0 'b'
        .word   0x26 0xC1 0 0 0xC1              # no ASCII
        .word   0x26 0xFFFFFFDA 0 0 0xDA
        .word   0x26 0 0 0 0
";
    rows(&rt, TEXT, b" Exit 00000000\n");
}

#[test]
fn texts_without_a_zero_stop_where_user_memory_ends(rt: HostRuntime) {
    let stop = b" BadPointer 80200000 8001004C\n".as_slice();
    rows(&rt, b"rows: .word 0x17 0x801FFFFF xy 0 0\n", stop);
    rows(&rt, b"rows: .word 0x17 xy 0x801FFFFF 0 0\n", stop);
    rows(&rt, b"rows: .word 0x17 0x801FFFFF 0x801FFFFF 0 0\n", stop);
    rows(&rt, b"rows: .word 0x18 0x801FFFFF xy 2 0\n", stop);
    rows(&rt, b"rows: .word 0x18 xy 0x801FFFFF 2 0\n", stop);
    rows(&rt, b"rows: .word 0x1C 0x801FFFFF 'y' 0 0\n", stop);
    rows(&rt, b"rows: .word 0x1E 0x801FFFFF 0 0 0\n", stop);
    rows(&rt, b"rows: .word 0x1D 0x801FFFFF 'x' 0 0\n", stop);
    rows(&rt, b"rows: .word 0x1F 0x801FFFFF 'x' 0 0\n", stop);
    rows(&rt, b"rows: .word 0x2E 0x801FFFFF 'y' 2 0\n", stop);
    rows(
        &rt,
        b"rows: .word 0x2E 0x9F8003FF 'y' 2 0\n",
        b" BadPointer 9F800400 8001004C\n",
    );
}

#[test]
fn the_first_text_is_named_where_both_end(rt: HostRuntime) {
    let stop = b" BadPointer 1F800400 8001004C\n".as_slice();
    rows(&rt, b"rows: .word 0x17 0x1F8003FF 0x801FFFFF 0 0\n", stop);
    rows(&rt, b"rows: .word 0x18 0x1F8003FF 0x801FFFFF 2 0\n", stop);
}

#[test]
fn an_address_that_is_not_user_memory_stops(rt: HostRuntime) {
    let stop = b" BadPointer 0000FFFF 8001004C\n".as_slice();
    rows(&rt, b"rows: .word 0x17 0xFFFF abc 0 0\n", stop);
    rows(&rt, b"rows: .word 0x17 abc 0xFFFF 0 0\n", stop);
    rows(&rt, b"rows: .word 0x17 0xFFFF 0xFFFF00 0 0\n", stop);
    rows(&rt, b"rows: .word 0x18 0xFFFF abc 1 0\n", stop);
    rows(&rt, b"rows: .word 0x18 abc 0xFFFF 1 0\n", stop);
    rows(&rt, b"rows: .word 0x1E 0xFFFF 'a' 0 0\n", stop);
    rows(&rt, b"rows: .word 0x1F 0xFFFF 'a' 0 0\n", stop);
}
