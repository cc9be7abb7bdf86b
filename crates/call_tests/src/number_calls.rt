//! strtoul, strtol, atoi, atol, abs and labs, each made by a program on the image.
use crate::hosts::shows;

// strtol of "-5z" in base 10 answers -5, and the rest is the z; strtoul of "0x1F" in base 0 answers 31.
#[test]
fn a_number_with_a_sign_and_one_with_a_prefix(rt: HostRuntime) {
    const TEXT: &[u8] = b"
start:
        li      r10, 0xA0
        la      r4, minus
        la      r5, rest
        li      r6, 10
        li      r9, 0x0D                # strtol(\"-5z\", rest, 10)
        jalr    r31, r10
        nop
        addiu   r16, r2, 5              # 0 where it is -5
        lw      r8, 0(r5)
        nop
        lbu     r17, 0(r8)              # the byte at the rest, 7Ah
        la      r4, prefix
        li      r6, 0
        li      r9, 0x0C                # strtoul(\"0x1F\", rest, 0)
        jalr    r31, r10
        nop
        sll     r16, r16, 16
        sll     r2, r2, 8
        or      r16, r16, r2
        or      r4, r16, r17
        li      r9, 0x06                # exit
        jr      r10
        nop

        .align  4
rest:   .word   0
minus:  .asciiz \"-5z\"
prefix: .asciiz \"0x1F\"
";
    shows(&rt, TEXT, b"", b" Exit 00001F7A\n");
}

// The numerals of seven words in five bases. Each text's rest is its zero, behind which the next one begins. The program ends with how many of the 35 were read as they are.
#[test]
fn the_numerals_of_words(rt: HostRuntime) {
    const TEXT: &[u8] = b"
start:
        la      r16, texts
        la      r17, bases
        la      r5, rest
        li      r10, 0xA0
        li      r20, 0
base:
        lw      r6, 0(r17)
        addiu   r17, r17, 4
        beq     r6, r0, done
        la      r18, words
        li      r19, 7
word:
        move    r4, r16
        li      r9, 0x0D                # strtol
        jalr    r31, r10
        nop
        lw      r11, 0(r18)
        lw      r16, 0(r5)
        bne     r2, r11, done
        addiu   r18, r18, 4
        lbu     r12, 0(r16)
        addiu   r16, r16, 1
        bne     r12, r0, done
        addiu   r19, r19, -1
        addiu   r20, r20, 1
        bne     r19, r0, word
        nop
        beq     r0, r0, base
        nop
done:
        move    r4, r20
        li      r9, 0x06                # exit
        jr      r10
        nop

        .align  4
rest:   .word   0
bases:  .word   2 8 10 16 36 0
words:  .word   0 1 9 10 0x7FFFFFFF 0x80000000 0xFFFFFFFF
texts:  .asciiz \"0\"
        .asciiz \"1\"
        .asciiz \"1001\"
        .asciiz \"1010\"
        .asciiz \"1111111111111111111111111111111\"
        .asciiz \"10000000000000000000000000000000\"
        .asciiz \"11111111111111111111111111111111\"
        .asciiz \"0\"
        .asciiz \"1\"
        .asciiz \"11\"
        .asciiz \"12\"
        .asciiz \"17777777777\"
        .asciiz \"20000000000\"
        .asciiz \"37777777777\"
        .asciiz \"0\"
        .asciiz \"1\"
        .asciiz \"9\"
        .asciiz \"10\"
        .asciiz \"2147483647\"
        .asciiz \"2147483648\"
        .asciiz \"4294967295\"
        .asciiz \"0\"
        .asciiz \"1\"
        .asciiz \"9\"
        .asciiz \"a\"
        .asciiz \"7fffFFFF\"
        .asciiz \"80000000\"
        .asciiz \"FFFFFFFF\"
        .asciiz \"0\"
        .asciiz \"1\"
        .asciiz \"9\"
        .asciiz \"A\"
        .asciiz \"zik0zj\"
        .asciiz \"ZIK0ZK\"
        .asciiz \"1z141z3\"
";
    shows(&rt, TEXT, b"", b" Exit 00000023\n");
}

// Each line of the table has a text, a base, the answer, and how far from the text its rest is. The program ends with how many of the 32 calls answer so.
#[test]
fn blanks_signs_prefixes_and_bases(rt: HostRuntime) {
    const TEXT: &[u8] = b"
start:
        la      r16, table
        la      r5, rest
        li      r10, 0xA0
        li      r20, 0
        li      r21, 32
next:
        lw      r4, 0(r16)
        lw      r6, 4(r16)
        li      r9, 0x0D                # strtol
        jalr    r31, r10
        nop
        lw      r11, 8(r16)
        lw      r12, 12(r16)
        lw      r13, 0(r5)
        bne     r2, r11, done
        subu    r13, r13, r4
        bne     r13, r12, done
        addiu   r16, r16, 16
        addiu   r20, r20, 1
        bne     r20, r21, next
        nop
done:
        move    r4, r20
        li      r9, 0x06                # exit
        jr      r10
        nop

        .align  4
rest:   .word   0
table:  .word   blanks 10 0xFFFFFFFB 8
        .word   plus 10 5 2
        .word   two_signs 10 0 0
        .word   sign 10 0 0
        .word   spaces 10 0 0
        .word   empty 10 0 0
        .word   letters 10 0 0
        .word   letters 16 0xABC 3
        .word   hex 0 0x1F 4
        .word   hex 16 0x1F 4
        .word   hex 10 0 1
        .word   hex 36 42819 4
        .word   capital 0 0xFFFFFFE1 5
        .word   octal 0 15 3
        .word   octal 10 17 3
        .word   octal 16 0x17 3
        .word   eight 0 0 1
        .word   eight 16 8 2
        .word   no_hex 0 0 1
        .word   no_hex 16 0 1
        .word   no_hex 34 1138 3
        .word   x 0 0 1
        .word   eighteen 8 1 1
        .word   z 36 1295 2
        .word   z 35 0 0
        .word   past 10 0 10
        .word   minus_past 10 1 11
        .word   long 10 0x630FFFFF 20
        .word   octal 1 0 0
        .word   octal 37 0 0
        .word   octal 0xFFFFFFFF 0 0
        .word   0xFFFF 1 0 0
blanks: .byte   0x20 0x09 0x0A 0x0B 0x0C 0x0D
        .asciiz \"-5z\"
plus:   .asciiz \"+5\"
two_signs:
        .asciiz \"+-5\"
sign:   .asciiz \" -\"
spaces: .asciiz \"  \"
empty:  .asciiz \"\"
letters:
        .asciiz \"abc\"
hex:    .asciiz \"0x1f\"
capital:
        .asciiz \"-0X1F\"
octal:  .asciiz \"017\"
eight:  .asciiz \"08\"
no_hex: .asciiz \"0xg\"
x:      .asciiz \"0x\"
eighteen:
        .asciiz \"18\"
z:      .asciiz \"Zz\"
past:   .asciiz \"4294967296\"
minus_past:
        .asciiz \"-4294967295\"
long:   .asciiz \"99999999999999999999\"
";
    shows(&rt, TEXT, b"", b" Exit 00000020\n");
}

// Where end is 0 nothing is written. Where s is 0, the answer is 0 in any base, and end stays as it was.
#[test]
fn no_end_and_no_text(rt: HostRuntime) {
    const TEXT: &[u8] = b"
start:
        li      r10, 0xA0
        la      r4, text
        li      r5, 0
        li      r6, 10
        li      r9, 0x0D                # strtol(\"77\", 0, 10)
        jalr    r31, r10
        nop
        move    r16, r2
        li      r4, 0
        la      r5, rest
        li      r9, 0x0C                # strtoul(0, rest, 10)
        jalr    r31, r10
        li      r2, 5
        sll     r16, r16, 8
        or      r16, r16, r2
        li      r6, 1
        jalr    r31, r10                # strtoul(0, rest, 1)
        li      r2, 5
        or      r16, r16, r2
        lw      r2, 0(r5)
        sll     r16, r16, 8
        or      r4, r16, r2
        li      r9, 0x06                # exit
        jr      r10
        nop

        .align  4
rest:   .word   0xAA
text:   .asciiz \"77\"
";
    shows(&rt, TEXT, b"", b" Exit 004D00AA\n");
}

// An end at which no word of user memory stands: it isn't a multiple of 4, or not user memory. It is looked at last.
#[test]
fn a_bad_end_stops(rt: HostRuntime) {
    const FIRST: &[u8] = b"
start:
        la      r4, text
        li      r5, 0x80010002
        li      r6, 10
        li      r9, 0x0D                # strtol
        li      r10, 0xA0
        jalr    r31, r10
        nop
text:   .asciiz \"5\"
";
    const SECOND: &[u8] = b"
start:
        la      r4, text
        li      r5, 0x8000FFFC
        li      r6, 99                  # also where no byte is read
        li      r9, 0x0C                # strtoul
        li      r10, 0xA0
        jalr    r31, r10
        nop
text:   .asciiz \"5\"
";
    const THIRD: &[u8] = b"
start:
        li      r4, 0x8000FFFF
        li      r5, 0x80010002
        li      r6, 10
        li      r9, 0x0D                # strtol
        li      r10, 0xA0
        jalr    r31, r10
        nop
";
    shows(&rt, FIRST, b"", b" BadPointer 80010002 80010024\n");
    shows(&rt, SECOND, b"", b" BadPointer 8000FFFC 80010024\n");
    shows(&rt, THIRD, b"", b" BadPointer 8000FFFF 80010024\n");
}

// The byte that ends a number is read, so a number may not end with user memory: behind a digit, a blank, a sign, a first 0, an x. One that ends before it is read whole.
#[test]
fn a_text_that_ends_with_user_memory(rt: HostRuntime) {
    const FIRST: &[u8] = b"
start:
        li      r16, 0x801FFFFC
        li      r8, 0x78302D20          # a blank, a minus, 0 and x
        sw      r8, 0(r16)
        move    r4, r16
        li      r5, 0
        li      r6, 0
        li      r9, 0x0D                # strtol
        li      r10, 0xA0
        jalr    r31, r10
        nop
";
    const SECOND: &[u8] = b"
start:
        li      r16, 0x801FFFFC
        li      r8, 0x78303739          # 9, 7, 0 and x
        sw      r8, 0(r16)
        move    r4, r16
        li      r5, 0
        li      r6, 10
        li      r9, 0x0D                # strtol
        li      r10, 0xA0
        jalr    r31, r10
        nop
        move    r4, r2
        li      r9, 0x06                # exit
        jr      r10
        nop
";
    for (text, base) in [
        ("0x37", "10"),
        ("0x20", "10"),
        ("0x2D", "10"),
        ("0x30", "0"),
        ("0x30", "16"),
        ("0x30", "10"),
    ] {
        let program = format!(in rt.alloc();
            "
start:
        li      r16, 0x801FFFFF
        li      r8, {text}
        sb      r8, 0(r16)
        move    r4, r16
        li      r5, 0
        li      r6, {base}
        li      r9, 0x0D                # strtol
        li      r10, 0xA0
        jalr    r31, r10
        nop
"
        );
        let program = program.expect(&rt, "memory");
        shows(
            &rt,
            program.as_bytes(),
            b"",
            b" BadPointer 80200000 8001002C\n",
        );
    }
    shows(&rt, FIRST, b"", b" BadPointer 80200000 80010030\n");
    shows(&rt, SECOND, b"", b" Exit 000003CA\n");
}

// Each line of the table has a text and what atoi and atol answer. A first 0 and an x are no prefix. The program ends with how many of the 14 calls answer so.
#[test]
fn decimal_numbers(rt: HostRuntime) {
    const FIRST: &[u8] = b"
start:
        la      r16, table
        li      r10, 0xA0
        li      r20, 0
        li      r21, 14
next:
        lw      r4, 0(r16)
        lw      r11, 4(r16)
        addiu   r16, r16, 8
        li      r9, 0x10                # atoi
        jalr    r31, r10
        nop
        bne     r2, r11, done
        addiu   r20, r20, 1
        li      r9, 0x11                # atol
        jalr    r31, r10
        nop
        bne     r2, r11, done
        addiu   r20, r20, 1
        bne     r20, r21, next
        nop
done:
        move    r4, r20
        li      r9, 0x06                # exit
        jr      r10
        nop

        .align  4
table:  .word   0 0
        .word   some 42
        .word   minus 0xFFFFFFFF
        .word   least 0x80000000
        .word   hex 0
        .word   letters 0
        .word   leading 12
some:   .asciiz \"  42\"
minus:  .asciiz \"-1\"
least:  .asciiz \"-2147483648\"
hex:    .asciiz \"0x10\"
letters:
        .asciiz \"x1\"
leading:
        .asciiz \"+0012abc\"
";
    const SECOND: &[u8] = b"
start:
        li      r4, 0xFFFF
        li      r9, 0x10                # atoi
        li      r10, 0xA0
        jalr    r31, r10
        nop
";
    shows(&rt, FIRST, b"", b" Exit 0000000E\n");
    shows(&rt, SECOND, b"", b" BadPointer 0000FFFF 80010014\n");
}

// Each line of the table has a word and its magnitude. The program ends with how many of the 12 calls of abs and labs answer so.
#[test]
fn magnitudes(rt: HostRuntime) {
    const TEXT: &[u8] = b"
start:
        la      r16, table
        li      r10, 0xA0
        li      r20, 0
        li      r21, 12
next:
        lw      r4, 0(r16)
        lw      r11, 4(r16)
        addiu   r16, r16, 8
        li      r9, 0x0E                # abs
        jalr    r31, r10
        nop
        bne     r2, r11, done
        addiu   r20, r20, 1
        li      r9, 0x0F                # labs
        jalr    r31, r10
        nop
        bne     r2, r11, done
        addiu   r20, r20, 1
        bne     r20, r21, next
        nop
done:
        move    r4, r20
        li      r9, 0x06                # exit
        jr      r10
        nop

        .align  4
table:  .word   0 0
        .word   7 7
        .word   0xFFFFFFF9 7
        .word   0x7FFFFFFF 0x7FFFFFFF
        .word   0x80000000 0x80000000
        .word   0x80000001 0x7FFFFFFF
";
    shows(&rt, TEXT, b"", b" Exit 0000000C\n");
}
