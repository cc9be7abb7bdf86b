//! The calls that copy texts, each made by a program on the image.
use crate::hosts::shows;

// What is behind the zero stays.
#[test]
fn strcpy_copies_a_text_with_its_zero(rt: HostRuntime) {
    const TEXT: &[u8] = b"
start:
        li      r10, 0xA0
        la      r4, to
        la      r5, text
        li      r9, 0x19                # strcpy
        jalr    r31, r10
        nop
        move    r4, r2                  # the answer is the destination
        li      r9, 0x3E                # puts
        jalr    r31, r10
        nop
        lbu     r4, 4(r4)               # behind its zero there is an x
        li      r9, 0x06                # exit
        jr      r10
        nop
text:   .asciiz \"abc\"
to:     .asciiz \"xxxxxx\"
";
    shows(&rt, TEXT, b"abc", b" Exit 00000078\n");
}

#[test]
fn strcpy_of_an_empty_text_writes_a_zero(rt: HostRuntime) {
    const TEXT: &[u8] = b"
start:
        li      r10, 0xA0
        la      r4, to
        la      r5, text
        li      r9, 0x19                # strcpy
        jalr    r31, r10
        nop
        lbu     r8, 0(r2)               # 0
        lbu     r9, 1(r2)               # y
        sll     r8, r8, 8
        or      r4, r8, r9
        li      r9, 0x06                # exit
        jr      r10
        nop
text:   .asciiz \"\"
to:     .asciiz \"xy\"
";
    shows(&rt, TEXT, b"", b" Exit 00000079\n");
}

#[test]
fn strcat_copies_a_text_behind_another(rt: HostRuntime) {
    const TEXT: &[u8] = b"
start:
        li      r10, 0xA0
        la      r4, to
        la      r5, text
        li      r9, 0x15                # strcat
        jalr    r31, r10
        nop
        la      r5, none
        jalr    r31, r10                # nothing is added
        nop
        move    r4, r2
        li      r9, 0x3E                # puts
        jalr    r31, r10
        nop
        lbu     r4, 6(r4)               # behind its zero there is an x
        li      r9, 0x06                # exit
        jr      r10
        nop
text:   .asciiz \"two\"
none:   .asciiz \"\"
to:     .ascii \"on\"
        .byte   0
        .asciiz \"xxxx\"
";
    shows(&rt, TEXT, b"ontwo", b" Exit 00000078\n");
}

#[test]
fn strncat_adds_so_many_bytes_and_a_zero(rt: HostRuntime) {
    const TEXT: &[u8] = b"
start:
        li      r10, 0xA0
        la      r4, to
        la      r5, text
        li      r6, 2
        li      r9, 0x16                # strncat
        jalr    r31, r10                # ab
        nop
        li      r6, 9
        jalr    r31, r10                # ababcd
        nop
        move    r4, r2
        li      r9, 0x3E                # puts
        jalr    r31, r10
        nop
        lbu     r4, 7(r4)               # behind its zero there is an x
        li      r9, 0x06                # exit
        jr      r10
        nop
text:   .asciiz \"abcd\"
to:     .byte   0
        .asciiz \"xxxxxxxxx\"
";
    shows(&rt, TEXT, b"ababcd", b" Exit 00000078\n");
}

// The source isn't user memory, and isn't read.
#[test]
fn strncat_of_no_bytes_writes_a_zero_where_one_is(rt: HostRuntime) {
    const TEXT: &[u8] = b"
start:
        li      r10, 0xA0
        la      r4, to
        li      r5, 0x10
        li      r6, 0
        li      r9, 0x16                # strncat
        jalr    r31, r10
        nop
        move    r4, r2
        li      r6, -1
        jalr    r31, r10
        nop
        move    r4, r2
        li      r9, 0x3E                # puts
        jalr    r31, r10
        nop
        li      r4, 0
        li      r9, 0x06                # exit
        jr      r10
        nop
to:     .asciiz \"ab\"
";
    shows(&rt, TEXT, b"ab", b" Exit 00000000\n");
}

// Behind its two bytes user memory ends.
#[test]
fn strncat_reads_no_more_than_it_copies(rt: HostRuntime) {
    const TEXT: &[u8] = b"
start:
        li      r10, 0xA0
        li      r5, 0x801FFFFE
        li      r8, 0x4241
        sh      r8, 0(r5)
        la      r4, to
        li      r6, 2
        li      r9, 0x16                # strncat
        jalr    r31, r10
        nop
        move    r4, r2
        li      r9, 0x3E                # puts
        jalr    r31, r10
        nop
        li      r4, 0
        li      r9, 0x06                # exit
        jr      r10
        nop
to:     .asciiz \"to\"
        .space  4
";
    shows(&rt, TEXT, b"toAB", b" Exit 00000000\n");
}

#[test]
fn strncpy_writes_zeros_for_what_the_text_lacks(rt: HostRuntime) {
    const TEXT: &[u8] = b"
start:
        li      r10, 0xA0
        la      r4, to
        la      r5, text
        li      r6, 5
        li      r9, 0x1A                # strncpy
        jalr    r31, r10
        nop
        lw      r16, 0(r2)              # 00006261
        lw      r17, 4(r2)              # 78787800
        nop
        addu    r4, r16, r17
        li      r9, 0x06                # exit
        jr      r10
        nop
        .align  2
to:     .ascii  \"xxxxxxxx\"
text:   .asciiz \"ab\"
";
    shows(&rt, TEXT, b"", b" Exit 7878DA61\n");
}

// Nor is the third byte of the text read, behind which user memory ends.
#[test]
fn strncpy_writes_no_zero_behind_so_many_bytes(rt: HostRuntime) {
    const TEXT: &[u8] = b"
start:
        li      r10, 0xA0
        li      r5, 0x801FFFFE
        li      r8, 0x4241
        sh      r8, 0(r5)
        la      r4, to
        li      r6, 2
        li      r9, 0x1A                # strncpy
        jalr    r31, r10
        nop
        move    r4, r2
        li      r9, 0x3E                # puts
        jalr    r31, r10
        nop
        li      r4, 0
        li      r9, 0x06                # exit
        jr      r10
        nop
to:     .asciiz \"xxxx\"
";
    shows(&rt, TEXT, b"ABxx", b" Exit 00000000\n");
}

// Neither pointer is user memory.
#[test]
fn strncpy_of_no_bytes_touches_nothing(rt: HostRuntime) {
    const TEXT: &[u8] = b"
start:
        li      r10, 0xA0
        li      r4, 0x30
        li      r5, 0x10
        li      r6, 0
        li      r9, 0x1A                # strncpy
        jalr    r31, r10
        nop
        move    r16, r2
        li      r6, -1
        jalr    r31, r10
        nop
        addu    r4, r16, r2
        li      r9, 0x06                # exit
        jr      r10
        nop
";
    shows(&rt, TEXT, b"", b" Exit 00000060\n");
}

// The four, with the pointer 0 in each place; r2 is 5 before each call, and r16 gathers the answers.
#[test]
fn the_pointer_0_answers_0_in_each_place(rt: HostRuntime) {
    const TEXT: &[u8] = b"
start:
        li      r10, 0xA0
        li      r16, 0
        li      r6, 4
        li      r4, 0
        li      r5, 0x10
        li      r9, 0x15                # strcat(0, 10h)
        jalr    r31, r10
        li      r2, 5
        or      r16, r16, r2
        li      r9, 0x16                # strncat(0, 10h, 4)
        jalr    r31, r10
        li      r2, 5
        or      r16, r16, r2
        li      r9, 0x19                # strcpy(0, 10h)
        jalr    r31, r10
        li      r2, 5
        or      r16, r16, r2
        li      r9, 0x1A                # strncpy(0, 10h, 4)
        jalr    r31, r10
        li      r2, 5
        or      r16, r16, r2
        li      r4, 0x10
        li      r5, 0
        jalr    r31, r10                # strncpy(10h, 0, 4)
        li      r2, 5
        or      r16, r16, r2
        li      r9, 0x19                # strcpy(10h, 0)
        jalr    r31, r10
        li      r2, 5
        or      r16, r16, r2
        li      r9, 0x16                # strncat(10h, 0, 4)
        jalr    r31, r10
        li      r2, 5
        or      r16, r16, r2
        li      r9, 0x15                # strcat(10h, 0)
        jalr    r31, r10
        li      r2, 5
        or      r4, r16, r2
        li      r9, 0x06                # exit
        jr      r10
        nop
";
    shows(&rt, TEXT, b"", b" Exit 00000000\n");
}

#[test]
fn strcpy_stops_where_user_memory_ends_before_the_zero(rt: HostRuntime) {
    const TEXT: &[u8] = b"
start:
        li      r5, 0x801FFFFF          # two words
        li      r8, 'A'
        sb      r8, 0(r5)
        li      r4, 0x1F800000          # one word
        li      r9, 0x19                # strcpy
        li      r10, 0xA0
        jalr    r31, r10                # at 8001001Ch, so r31 is 80010024h
        nop
";
    shows(&rt, TEXT, b"", b" BadPointer 80200000 80010024\n");
}

// The source's bad address comes first where both come at once, and the destination's where its memory ends before.
#[test]
fn strcpy_names_the_source_before_the_destination(rt: HostRuntime) {
    const FIRST: &[u8] = b"
start:
        li      r5, 0x1F8003FF          # two words
        li      r8, 'A'
        sb      r8, 0(r5)
        li      r4, 0x801FFFFF          # two words
        li      r9, 0x19                # strcpy
        li      r10, 0xA0
        jalr    r31, r10                # at 80010020h, so r31 is 80010028h
        nop
";
    const SECOND: &[u8] = b"
start:
        la      r5, text
        li      r4, 0x801FFFFF          # two words
        li      r9, 0x19                # strcpy
        li      r10, 0xA0
        jalr    r31, r10                # at 80010018h, so r31 is 80010020h
        nop
text:   .asciiz \"A\"
";
    shows(&rt, FIRST, b"", b" BadPointer 1F800400 80010028\n");
    shows(&rt, SECOND, b"", b" BadPointer 80200000 80010020\n");
}

#[test]
fn strcat_stops_where_the_destination_has_no_zero(rt: HostRuntime) {
    const TEXT: &[u8] = b"
start:
        li      r4, 0x801FFFFF          # two words
        li      r8, 'A'
        sb      r8, 0(r4)
        li      r5, 0x10                # it isn't read
        li      r9, 0x15                # strcat
        li      r10, 0xA0
        jalr    r31, r10                # at 8001001Ch, so r31 is 80010024h
        nop
";
    shows(&rt, TEXT, b"", b" BadPointer 80200000 80010024\n");
}

// One byte fits where the destination's zero is, and no zero behind it.
#[test]
fn strncat_stops_where_its_zero_has_no_room(rt: HostRuntime) {
    const TEXT: &[u8] = b"
start:
        li      r4, 0x801FFFFF          # two words
        sb      r0, 0(r4)
        li      r6, 1
        la      r5, text                # two words
        li      r9, 0x16                # strncat
        li      r10, 0xA0
        jalr    r31, r10                # at 80010020h, so r31 is 80010028h
        nop
text:   .asciiz \"ab\"
";
    shows(&rt, TEXT, b"", b" BadPointer 80200000 80010028\n");
}

#[test]
fn strncpy_stops_where_user_memory_ends_in_each_place(rt: HostRuntime) {
    const FIRST: &[u8] = b"
start:
        li      r5, 0x801FFFFF          # two words
        li      r8, 'A'
        sb      r8, 0(r5)
        li      r4, 0x1F800000          # one word
        li      r6, 2
        li      r9, 0x1A                # strncpy
        li      r10, 0xA0
        jalr    r31, r10                # at 80010020h, so r31 is 80010028h
        nop
";
    const SECOND: &[u8] = b"
start:
        li      r4, 0x1F8003FE          # two words
        la      r5, text                # two words
        li      r6, 3
        li      r9, 0x1A                # strncpy
        li      r10, 0xA0
        jalr    r31, r10                # at 8001001Ch, so r31 is 80010024h
        nop
text:   .asciiz \"\"
";
    shows(&rt, FIRST, b"", b" BadPointer 80200000 80010028\n");
    shows(&rt, SECOND, b"", b" BadPointer 1F800400 80010024\n");
}

#[test]
fn texts_are_copied_in_the_scratchpad(rt: HostRuntime) {
    const TEXT: &[u8] = b"
start:
        li      r10, 0xA0
        li      r4, 0x1F800000
        la      r5, text
        li      r9, 0x19                # strcpy
        jalr    r31, r10
        nop
        li      r5, 0x9F800001          # the same memory, in another segment
        li      r6, 1
        li      r9, 0x16                # strncat
        jalr    r31, r10
        nop
        li      r9, 0x15                # strcat
        la      r5, text
        jalr    r31, r10
        nop
        li      r9, 0x3E                # puts
        jalr    r31, r10
        nop
        li      r4, 0
        li      r9, 0x06                # exit
        jr      r10
        nop
text:   .asciiz \"ab\"
";
    shows(&rt, TEXT, b"abbab", b" Exit 00000000\n");
}

// A destination before its source gets the text; one behind it overwrites the zero before it is read, also by another segment, and the copy runs on to the end of memory.
#[test]
fn each_byte_is_read_as_memory_is_then(rt: HostRuntime) {
    const FIRST: &[u8] = b"
start:
        li      r10, 0xA0
        la      r4, text
        addiu   r5, r4, 1
        li      r9, 0x19                # strcpy
        jalr    r31, r10
        nop
        li      r9, 0x3E                # puts
        jalr    r31, r10
        nop
        li      r4, 0
        li      r9, 0x06                # exit
        jr      r10
        nop
text:   .asciiz \"abcdef\"
";
    const SECOND: &[u8] = b"
start:
        li      r5, 0x001FFFF0          # two words
        li      r8, 'A'
        sb      r8, 0(r5)
        li      r4, 0x801FFFF1          # two words
        li      r9, 0x19                # strcpy
        li      r10, 0xA0
        jalr    r31, r10                # at 80010020h, so r31 is 80010028h
        nop
";
    const THIRD: &[u8] = b"
start:
        li      r4, 0x801FFFF0          # two words
        li      r8, 'A'
        sb      r8, 0(r4)
        move    r5, r4
        li      r9, 0x15                # strcat
        li      r10, 0xA0
        jalr    r31, r10                # at 8001001Ch, so r31 is 80010024h
        nop
";
    shows(&rt, FIRST, b"bcdef", b" Exit 00000000\n");
    shows(&rt, SECOND, b"", b" BadPointer 80200000 80010028\n");
    shows(&rt, THIRD, b"", b" BadPointer 80200000 80010024\n");
}
