//! strpbrk, strspn, strcspn, strtok and strstr at their edges: the scratchpad, the ends of user memory, a set of no bytes, a set within the text. Each call is made by a program on the image.
use crate::hosts::shows;

// The text is copied to the scratchpad, which has the same bytes in two segments.
#[test]
fn texts_and_sets_in_the_scratchpad(rt: HostRuntime) {
    const TEXT: &[u8] = b"
start:
        li      r10, 0xA0
        li      r4, 0x1F800000
        la      r5, text
        li      r9, 0x19                # strcpy
        jalr    r31, r10
        nop
        li      r4, 0x1F800100
        la      r5, ab
        jalr    r31, r10
        nop
        li      r4, 0x9F800000
        li      r5, 0x1F800100
        li      r9, 0x21                # strspn(\"abaxcba\", \"ab\")
        jalr    r31, r10
        nop
        sll     r16, r2, 8              # 3
        li      r4, 0x1F800003
        li      r5, 0x9F800100
        li      r9, 0x22                # strcspn(\"xcba\", \"ab\")
        jalr    r31, r10
        nop
        or      r16, r16, r2            # 2
        sll     r16, r16, 8
        li      r9, 0x20                # strpbrk(\"xcba\", \"ab\")
        jalr    r31, r10
        nop
        subu    r2, r2, r4              # 2
        or      r16, r16, r2
        sll     r16, r16, 8
        li      r4, 0x9F800001
        li      r9, 0x24                # strstr(\"baxcba\", \"ab\")
        jalr    r31, r10
        li      r2, 5
        or      r16, r16, r2            # 0
        la      r5, x
        li      r9, 0x23                # strtok(\"baxcba\", \"x\")
        jalr    r31, r10
        nop
        move    r4, r2
        li      r9, 0x3E                # puts
        jalr    r31, r10
        nop
        move    r4, r16
        li      r9, 0x06                # exit
        jr      r10
        nop

text:   .asciiz \"abaxcba\"
ab:     .asciiz \"ab\"
x:      .asciiz \"x\"
";
    shows(&rt, TEXT, b"ba", b" Exit 03020200\n");
}

// Its zero is the last byte of main memory, and no byte behind it is read.
#[test]
fn a_text_whose_zero_is_the_last_byte(rt: HostRuntime) {
    const TEXT: &[u8] = b"
start:
        li      r10, 0xA0
        li      r4, 0x801FFFFE
        li      r8, 0x61                # an a, and a zero
        sh      r8, 0(r4)
        la      r5, ab
        li      r9, 0x21                # strspn(\"a\", \"ab\")
        jalr    r31, r10
        nop
        sll     r16, r2, 4              # 1
        la      r5, b
        li      r9, 0x22                # strcspn(\"a\", \"b\")
        jalr    r31, r10
        nop
        or      r16, r16, r2            # 1
        sll     r16, r16, 4
        li      r9, 0x20                # strpbrk(\"a\", \"b\")
        jalr    r31, r10
        li      r2, 5
        or      r16, r16, r2            # 0
        sll     r16, r16, 4
        la      r5, ab
        li      r9, 0x24                # strstr(\"a\", \"ab\")
        jalr    r31, r10
        li      r2, 5
        or      r16, r16, r2            # 0
        sll     r16, r16, 4
        la      r5, b
        li      r9, 0x23                # strtok(\"a\", \"b\")
        jalr    r31, r10
        nop
        subu    r2, r2, r4              # 0
        or      r4, r16, r2
        li      r9, 0x06                # exit
        jr      r10
        nop

ab:     .ascii  \"a\"
b:      .asciiz \"b\"
";
    shows(&rt, TEXT, b"", b" Exit 00011000\n");
}

// Of an empty text there is no token. A set of no bytes ends none: the whole text is one, and the place is 0 behind it.
#[test]
fn strtok_of_an_empty_text_and_with_an_empty_set(rt: HostRuntime) {
    const TEXT: &[u8] = b"
start:
        li      r10, 0xA0
        li      r9, 0x23                # strtok
        la      r4, none
        la      r5, text
        jalr    r31, r10                # strtok(\"\", \"ab\")
        li      r2, 5
        move    r16, r2                 # 0
        la      r4, text
        la      r5, none
        jalr    r31, r10                # strtok(\"ab\", \"\")
        nop
        subu    r2, r2, r4              # 0
        or      r16, r16, r2
        li      r4, 0
        jalr    r31, r10                # the place is 0
        li      r2, 5
        or      r16, r16, r2
        la      r4, text
        li      r9, 0x3E                # puts
        jalr    r31, r10
        nop
        move    r4, r16
        li      r9, 0x06                # exit
        jr      r10
        nop

text:   .asciiz \"ab\"
none:   .asciiz \"\"
";
    shows(&rt, TEXT, b"ab", b" Exit 00000000\n");
}

// The set is the end of the text, so the zero behind the first token empties it: what is left is one token.
#[test]
fn strtok_reads_the_set_as_memory_is_then(rt: HostRuntime) {
    const TEXT: &[u8] = b"
start:
        li      r10, 0xA0
        li      r9, 0x23                # strtok
        la      r4, text
        addiu   r5, r4, 1
        jalr    r31, r10                # strtok(\"a,bb\", \",bb\")
        nop
        subu    r16, r2, r4             # 0
        sll     r16, r16, 8
        li      r4, 0
        jalr    r31, r10                # strtok(0, \"\")
        nop
        la      r4, text
        subu    r2, r2, r4              # 2
        or      r16, r16, r2
        li      r9, 0x3E                # puts
        jalr    r31, r10
        nop
        addiu   r4, r4, 2
        jalr    r31, r10
        nop
        move    r4, r16
        li      r9, 0x06                # exit
        jr      r10
        nop

text:   .asciiz \"a,bb\"
";
    shows(&rt, TEXT, b"abb", b" Exit 00000002\n");
}
