//! strpbrk, strspn, strcspn, strtok and strstr, each made by a program on the image.
use crate::hosts::shows;

// The run of a and b is 3 long, and that of other bytes behind it is 2 long; the first of c and d is the one at 4.
#[test]
fn runs_of_bytes_in_a_set_and_not_in_it(rt: HostRuntime) {
    const TEXT: &[u8] = b"
start:
        li      r10, 0xA0
        la      r4, text
        la      r5, ab
        li      r9, 0x21                # strspn(text, \"ab\")
        jalr    r31, r10
        nop
        sll     r16, r2, 8
        addiu   r4, r4, 3
        li      r9, 0x22                # strcspn(text + 3, \"ab\")
        jalr    r31, r10
        nop
        or      r16, r16, r2
        sll     r16, r16, 8
        la      r4, text
        la      r5, dc
        li      r9, 0x20                # strpbrk(text, \"dc\")
        jalr    r31, r10
        nop
        subu    r2, r2, r4
        or      r4, r16, r2
        li      r9, 0x06                # exit
        jr      r10
        nop

text:   .asciiz \"abaxcba\"
ab:     .asciiz \"ab\"
dc:     .asciiz \"dc\"
";
    shows(&rt, TEXT, b"", b" Exit 00030204\n");
}

// Of an empty text and of an empty set: strspn is 0, strcspn is the whole length, strpbrk answers 0. A text without a byte of the set is a run up to its end.
#[test]
fn empty_texts_and_empty_sets(rt: HostRuntime) {
    const TEXT: &[u8] = b"
start:
        li      r10, 0xA0
        la      r17, text
        la      r18, none
        la      r19, z
        move    r4, r17
        move    r5, r18
        li      r9, 0x21                # strspn(text, \"\")
        jalr    r31, r10
        li      r2, 5
        sll     r16, r2, 4
        li      r9, 0x22                # strcspn(text, \"\")
        jalr    r31, r10
        nop
        or      r16, r16, r2
        sll     r16, r16, 4
        li      r9, 0x20                # strpbrk(text, \"\")
        jalr    r31, r10
        li      r2, 5
        or      r16, r16, r2
        sll     r16, r16, 4
        move    r4, r18
        move    r5, r17
        li      r9, 0x21                # strspn(\"\", text)
        jalr    r31, r10
        li      r2, 5
        or      r16, r16, r2
        sll     r16, r16, 4
        li      r9, 0x22                # strcspn(\"\", text)
        jalr    r31, r10
        li      r2, 5
        or      r16, r16, r2
        sll     r16, r16, 4
        li      r9, 0x20                # strpbrk(\"\", text)
        jalr    r31, r10
        li      r2, 5
        or      r16, r16, r2
        sll     r16, r16, 4
        move    r4, r17
        move    r5, r19
        jalr    r31, r10                # strpbrk(text, \"z\")
        li      r2, 5
        or      r16, r16, r2
        sll     r16, r16, 4
        li      r9, 0x22                # strcspn(text, \"z\")
        jalr    r31, r10
        nop
        or      r4, r16, r2
        li      r9, 0x06                # exit
        jr      r10
        nop

text:   .asciiz \"abc\"
none:   .asciiz \"\"
z:      .asciiz \"z\"
";
    shows(&rt, TEXT, b"", b" Exit 03000003\n");
}

// The set isn't looked at for the zero of s: 0xFFFF isn't user memory. Nor are the bytes of the set behind the one that is equal: the last byte of user memory is it.
#[test]
fn the_set_is_read_up_to_the_byte_alone(rt: HostRuntime) {
    const TEXT: &[u8] = b"
start:
        li      r10, 0xA0
        li      r16, 0
        la      r4, none
        li      r5, 0xFFFF
        li      r9, 0x20                # strpbrk(\"\", FFFFh)
        jalr    r31, r10
        li      r2, 5
        or      r16, r16, r2
        li      r9, 0x21                # strspn
        jalr    r31, r10
        li      r2, 5
        or      r16, r16, r2
        li      r9, 0x22                # strcspn
        jalr    r31, r10
        li      r2, 5
        or      r16, r16, r2
        li      r9, 0x23                # strtok
        jalr    r31, r10
        li      r2, 5
        or      r16, r16, r2
        li      r5, 0x801FFFFF          # two words; the last byte of user memory is an a
        li      r8, 'a'
        sb      r8, 0(r5)
        la      r4, text
        li      r9, 0x21                # strspn(\"aa\", 801FFFFFh)
        jalr    r31, r10
        nop
        or      r4, r16, r2
        li      r9, 0x06                # exit
        jr      r10
        nop

none:   .asciiz \"\"
text:   .asciiz \"aa\"
";
    shows(&rt, TEXT, b"", b" Exit 00000002\n");
}

#[test]
fn texts_that_end_with_user_memory_stop(rt: HostRuntime) {
    const FIRST: &[u8] = b"
start:
        li      r4, 0x801FFFFF          # two words
        li      r8, 'a'
        sb      r8, 0(r4)
        la      r5, set
        li      r9, 0x21                # strspn
        li      r10, 0xA0
        jalr    r31, r10                # at 80010020h, so r31 is 80010028h
        nop

set:    .asciiz \"ba\"
";
    const SECOND: &[u8] = b"
start:
        li      r5, 0x801FFFFF          # two words
        li      r8, 'a'
        sb      r8, 0(r5)
        la      r4, text
        li      r9, 0x22                # strcspn
        li      r10, 0xA0
        jalr    r31, r10                # at 80010020h, so r31 is 80010028h
        nop

text:   .asciiz \"b\"
";
    const THIRD: &[u8] = b"
start:
        li      r4, 0xFFFF
        li      r5, 0xFFFE
        li      r9, 0x20                # strpbrk
        li      r10, 0xA0
        jalr    r31, r10                # at 80010010h, so r31 is 80010018h
        nop
";
    const FOURTH: &[u8] = b"
start:
        li      r4, 0xFFFF
        li      r5, 0xFFFE
        li      r9, 0x24                # strstr
        li      r10, 0xA0
        jalr    r31, r10                # at 80010010h, so r31 is 80010018h
        nop
";
    const FIFTH: &[u8] = b"
start:
        li      r4, 0x801FFFFF          # two words
        li      r8, 'a'
        sb      r8, 0(r4)
        la      r5, ab
        li      r9, 0x24                # strstr
        li      r10, 0xA0
        jalr    r31, r10                # at 80010020h, so r31 is 80010028h
        nop

ab:     .asciiz \"ab\"
";
    const SIXTH: &[u8] = b"
start:
        li      r4, 0x801FFFFF          # two words
        li      r8, 'a'
        sb      r8, 0(r4)
        la      r5, b
        li      r9, 0x23                # strtok
        li      r10, 0xA0
        jalr    r31, r10                # at 80010020h, so r31 is 80010028h
        nop

b:      .asciiz \"b\"
";
    // strspn of a text whose last byte is that of user memory, with no zero behind it.
    shows(&rt, FIRST, b"", b" BadPointer 80200000 80010028\n");
    // strcspn with such a set.
    shows(&rt, SECOND, b"", b" BadPointer 80200000 80010028\n");
    // strpbrk: s is read before the set.
    shows(&rt, THIRD, b"", b" BadPointer 0000FFFF 80010018\n");
    // strstr: t is read before s.
    shows(&rt, FOURTH, b"", b" BadPointer 0000FFFE 80010018\n");
    // strstr of a text without a zero, which ends as t begins.
    shows(&rt, FIFTH, b"", b" BadPointer 80200000 80010028\n");
    // strtok of a text without a zero.
    shows(&rt, SIXTH, b"", b" BadPointer 80200000 80010028\n");
}

// Each answers 0 and touches nothing: r2 is 5 before each call, FFFFh isn't user memory, and r16 gathers the answers.
#[test]
fn each_answers_0_for_the_pointer_0_in_either_place(rt: HostRuntime) {
    const TEXT: &[u8] = b"
start:
        li      r10, 0xA0
        li      r16, 0
        li      r9, 0x20                # the calls 20h to 24h
        li      r17, 0x25
each:   li      r4, 0
        li      r5, 0xFFFF
        jalr    r31, r10
        li      r2, 5
        or      r16, r16, r2
        li      r4, 0xFFFF
        li      r5, 0
        jalr    r31, r10
        li      r2, 5
        or      r16, r16, r2
        addiu   r9, r9, 1
        bne     r9, r17, each
        nop
        move    r4, r16
        li      r9, 0x06                # exit
        jr      r10
        nop
";
    shows(&rt, TEXT, b"", b" Exit 00000000\n");
}

#[test]
fn strtok_gives_the_tokens_one_by_one(rt: HostRuntime) {
    const TEXT: &[u8] = b"
start:
        li      r10, 0xA0
        la      r4, text
        la      r5, set
        li      r9, 0x23                # strtok(text, \",\")
        jalr    r31, r10
        nop
        subu    r16, r2, r4             # 0
        sll     r16, r16, 8
        li      r4, 0
        jalr    r31, r10                # strtok(0, \",\")
        nop
        la      r4, text
        subu    r2, r2, r4              # 3
        or      r16, r16, r2
        sll     r16, r16, 8
        li      r4, 0
        jalr    r31, r10                # strtok(0, \",\")
        li      r2, 5
        or      r16, r16, r2            # 0
        jalr    r31, r10                # the place is 0 now
        li      r2, 5
        or      r4, r16, r2
        li      r9, 0x06                # exit
        jr      r10
        nop

text:   .asciiz \"a,,b\"
set:    .asciiz \",\"
";
    shows(&rt, TEXT, b"", b" Exit 00000300\n");
}

// Separators stand at both ends, and each token is written as a text of its own. A null set answers 0 and leaves the place.
#[test]
fn strtok_ends_each_token_with_a_zero(rt: HostRuntime) {
    const TEXT: &[u8] = b"
start:
        li      r10, 0xA0
        la      r17, text
        la      r18, set
next:   move    r4, r17
        li      r5, 0
        li      r9, 0x23                # strtok(.., 0)
        jalr    r31, r10
        nop
        bne     r2, r0, bad
        move    r4, r17
        move    r5, r18
        jalr    r31, r10                # strtok(.., \" ,\")
        nop
        beq     r2, r0, done
        move    r4, r2
        li      r9, 0x3E                # puts
        jalr    r31, r10
        nop
        li      r4, '.'
        li      r9, 0x3C                # putchar
        jalr    r31, r10
        nop
        b       next
        li      r17, 0
done:   li      r4, 0
        li      r9, 0x06                # exit
        jr      r10
        nop
bad:    li      r4, 1
        li      r9, 0x06                # exit
        jr      r10
        nop

text:   .asciiz \", one,two  three ,\"
set:    .asciiz \" ,\"
";
    shows(&rt, TEXT, b"one.two.three.", b" Exit 00000000\n");
}

#[test]
fn strstr_finds_the_first_place(rt: HostRuntime) {
    const TEXT: &[u8] = b"
start:
        li      r10, 0xA0
        li      r9, 0x24                # strstr
        la      r4, text
        la      r5, aab
        jalr    r31, r10                # behind a beginning that differs at its end
        nop
        subu    r16, r2, r4             # 1
        sll     r16, r16, 8
        la      r5, none
        jalr    r31, r10                # the empty text stands at the beginning
        nop
        subu    r2, r2, r4              # 0
        or      r16, r16, r2
        sll     r16, r16, 8
        la      r5, ba
        jalr    r31, r10                # the text ends within it
        li      r2, 5
        or      r16, r16, r2
        sll     r16, r16, 8
        la      r4, none
        jalr    r31, r10                # in the empty text
        li      r2, 5
        or      r4, r16, r2
        li      r9, 0x06                # exit
        jr      r10
        nop

text:   .asciiz \"aaab\"
aab:    .asciiz \"aab\"
ba:     .asciiz \"ba\"
none:   .asciiz \"\"
";
    shows(&rt, TEXT, b"", b" Exit 01000000\n");
}
