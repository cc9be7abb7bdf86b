//! printf, called by programs on the image. What they write is what C's printf writes, where C says it, and else what PSX-SPX and calls.md fix.
use crate::hosts::{runs_to, shows};
use psx_base::{MemoryHost, Out};
use std::process::Abort;

// printf is called for each row of eight words: the format, r5 to r7, and the words from sp+16 on. The program ends with the sum of the answers.
const CALLS: &[u8] = b"
start:
        la      r16, rows
        li      r18, 0
        addiu   r29, r29, -40
row:
        lw      r4, 0(r16)
        lw      r5, 4(r16)
        lw      r6, 8(r16)
        beq     r4, r0, done
        lw      r7, 12(r16)
        lw      r8, 16(r16)
        lw      r11, 20(r16)
        sw      r8, 16(r29)
        lw      r8, 24(r16)
        sw      r11, 20(r29)
        lw      r11, 28(r16)
        sw      r8, 24(r29)
        sw      r11, 28(r29)
        li      r10, 0xA0
        jalr    r31, r10
        li      r9, 0x3F                # printf, in the slot of the jump
        addu    r18, r18, r2
        beq     r0, r0, row
        addiu   r16, r16, 32
done:
        move    r4, r18
        li      r9, 0x06                # exit
        jr      r10
        nop

        .align  4
";

// The rows are printed up to the stop: the host behind the run.
fn printed<R: AllocGlobal + Abort>(rt: &R, rows: &[u8], stop: &[u8]) -> MemoryHost {
    let mut text = Vec::new(rt.alloc());
    text.extend_from_slice(CALLS).expect(rt, "room");
    text.extend_from_slice(rows).expect(rt, "room");
    runs_to(rt, &text, b"", stop)
}

// They are written so.
fn prints<R: AllocGlobal + Abort>(rt: &R, rows: &[u8], tty: &[u8], stop: &[u8]) {
    assert_eq!(rt; printed(rt, rows, stop).sent(Out::Tty), tty, "{stop:?}");
}

// The first answers 22, the second 24.
#[test]
fn each_kind_with_words_of_the_stack(rt: HostRuntime) {
    const TEXT: &[u8] = b"
rows:   .word   f1 42 -7 text 48879 0 0 0
        .word   f2 7 65 0 8 48879 0 0
        .word   0 0 0
f1:     .asciiz \"%-5d|%05d|%.3s|%%|%x\"
f2:     .asciiz \"%.3d|%5c|%-4s|%o|%X\"
text:   .asciiz \"abcdef\"
";
    prints(
        &rt,
        TEXT,
        b"42   |-0007|abc|%|beef007|    A|(null)|10|BEEF",
        b" Exit 0000002E\n",
    );
}

// Eight arguments: the flags, the least width, and precisions. C says nothing of the flag 0 at c and s, which changes nothing here.
#[test]
fn each_kind_with_each_flag(rt: HostRuntime) {
    const FIRST: &[u8] = b"
rows:   .word   f_d -42 -42 -42 -42 -42 -42 -42
        .word   f_i -42 -42 -42 -42 -42 -42 -42
        .word   f_u 48879 48879 48879 48879 48879 48879 48879
        .word   f_o 48879 48879 48879 48879 48879 48879 48879
        .word   f_x 48879 48879 48879 48879 48879 48879 48879
        .word   f_y 48879 48879 48879 48879 48879 48879 48879
        .word   f_c 321 321 321 321 321 321 321
        .word   f_s abc abc abc abc abc abc abc
        .word   f_n 0 0 0 0 0 0 0
        .word   0 0 0
f_d:    .asciiz \"%-6d|%06d|%-06d|%1d|%.4d|%.0d|%6.3d\\n\"
f_i:    .asciiz \"%-6i|%06i|%-06i|%1i|%.4i|%.0i|%6.3i\\n\"
f_u:    .asciiz \"%-6u|%06u|%-06u|%1u|%.4u|%.0u|%6.3u\\n\"
f_o:    .asciiz \"%-6o|%06o|%-06o|%1o|%.4o|%.0o|%6.3o\\n\"
f_x:    .asciiz \"%-6x|%06x|%-06x|%1x|%.4x|%.0x|%6.3x\\n\"
f_y:    .asciiz \"%-6X|%06X|%-06X|%1X|%.4X|%.0X|%6.3X\\n\"
f_c:    .asciiz \"%-6c|%06c|%-06c|%1c|%.4c|%.0c|%6.3c\\n\"
f_s:    .asciiz \"%-6s|%06s|%-06s|%1s|%.4s|%.0s|%6.3s\\n\"
f_n:    .asciiz \"%-6s|%06s|%-06s|%1s|%.4s|%.0s|%6.3s\\n\"
abc:    .asciiz \"abc\"
";
    const SECOND: &[u8] = b"-42   |-00042|-42   |-42|-0042|-42|  -042
-42   |-00042|-42   |-42|-0042|-42|  -042
48879 |048879|48879 |48879|48879|48879| 48879
137357|137357|137357|137357|137357|137357|137357
beef  |00beef|beef  |beef|beef|beef|  beef
BEEF  |00BEEF|BEEF  |BEEF|BEEF|BEEF|  BEEF
A     |     A|A     |A|A|A|     A
abc   |   abc|abc   |abc|abc||   abc
(null)|(null)|(null)|(null)|(nul||   (nu
";
    prints(&rt, FIRST, SECOND, b" Exit 00000179\n");
}

// Seven words in each base, with a sign and without.
#[test]
fn the_numerals_of_words(rt: HostRuntime) {
    const FIRST: &[u8] = b"
rows:   .word   f 0 0 0 0 0 0 0
        .word   f 1 1 1 1 1 0 0
        .word   f 9 9 9 9 9 0 0
        .word   f 10 10 10 10 10 0 0
        .word   f 0x7FFFFFFF 0x7FFFFFFF 0x7FFFFFFF 0x7FFFFFFF 0x7FFFFFFF 0 0
        .word   f 0x80000000 0x80000000 0x80000000 0x80000000 0x80000000 0 0
        .word   f 0xFFFFFFFF 0xFFFFFFFF 0xFFFFFFFF 0xFFFFFFFF 0xFFFFFFFF 0 0
        .word   0 0 0
f:      .asciiz \"%d %u %o %x %X\\n\"
";
    const SECOND: &[u8] = b"0 0 0 0 0
1 1 1 1 1
9 9 11 9 9
10 10 12 a A
2147483647 2147483647 17777777777 7fffffff 7FFFFFFF
-2147483648 2147483648 20000000000 80000000 80000000
-1 4294967295 37777777777 ffffffff FFFFFFFF
";
    prints(&rt, FIRST, SECOND, b" Exit 000000C1\n");
}

// Precision 0 and value 0; bytes that no conversion has, which are written alone; any number of l; a byte 0; and a format that ends within a conversion.
#[test]
fn bytes_that_end_a_conversion(rt: HostRuntime) {
    const TEXT: &[u8] = b"
rows:   .word   none 0 0 0 0 0 0 0
        .word   alone 1 2 3 0 0 0 0
        .word   lengths 7 8 9 0 0 0 0
        .word   byte 256 0 0 0 0 0 0
        .word   ends 1 0 0 0 0 0 0
        .word   0 0 0
none:   .asciiz \"|%.0d|%.d|%3.0x|\\n\"
alone:  .asciiz \"%5%|%-%|%%|%+d|%.-3d|%5-d|%l5d\\n\"
lengths:.asciiz \"%ld %lld %d\\n\"
byte:   .asciiz \"%c|\"
ends:   .asciiz \"ab%-5\"
";
    prints(
        &rt,
        TEXT,
        b"|||   |
%|%|%|+d|-3d|-d|5d
7 8 9
\0|ab",
        b" Exit 00000025\n",
    );
}

// Precision 1 with value 0, the flag 0 where no width is, and a precision above any text.
#[test]
fn small_widths_and_precisions(rt: HostRuntime) {
    const TEXT: &[u8] = b"
rows:   .word   small 0 0 abc 5 6 7 abc
        .word   great abc abc 65 0 0 0 0
        .word   0 0 0
small:  .asciiz \"%.1d|%.1x|%.1s|%1.1d|%00d|%-0d|%-00s\\n\"
great:  .asciiz \"%.4000000000s|%.255s|%.256c\\n\"
abc:    .asciiz \"abc\"
";
    prints(
        &rt,
        TEXT,
        b"0|0|a|5|6|7|abc\nabc|abc|A\n",
        b" Exit 0000001A\n",
    );
}

// A width and a precision above 255 are 255.
#[test]
fn wide_texts(rt: HostRuntime) {
    const TEXT: &[u8] = b"
rows:   .word   f0 7 0 0 0 0 0 0
        .word   f1 7 0 0 0 0 0 0
        .word   f2 7 0 0 0 0 0 0
        .word   f3 7 0 0 0 0 0 0
        .word   f4 7 0 0 0 0 0 0
        .word   f5 65 0 0 0 0 0 0
        .word   f6 abc 0 0 0 0 0 0
        .word   f7 7 0 0 0 0 0 0
        .word   f8 7 0 0 0 0 0 0
        .word   f9 abc 0 0 0 0 0 0
        .word   f10 7 0 0 0 0 0 0
        .word   0 0 0
f0:     .asciiz \"%255d\"
f1:     .asciiz \"%256d\"
f2:     .asciiz \"%4000000000d\"
f3:     .asciiz \"%-256d\"
f4:     .asciiz \"%0256d\"
f5:     .asciiz \"%256c\"
f6:     .asciiz \"%256s\"
f7:     .asciiz \"%.4000000000d\"
f8:     .asciiz \"%.255d\"
f9:     .asciiz \"%.256s\"
f10:    .asciiz \"%.256d\"
abc:    .asciiz \"abc\"
";
    let host = printed(&rt, TEXT, b" Exit 000009F9\n");
    let written = host.sent(Out::Tty);
    assert_eq!(&rt; written.len(), 2553);
    assert!(rt; written.starts_with(b"     "));
    assert!(rt; written.ends_with(b"007"));
}

// The zero is the last user byte; then there is another byte in its place.
#[test]
fn a_format_that_ends_at_the_last_user_byte(rt: HostRuntime) {
    const TEXT: &[u8] = b"
start:
        li      r16, 0x801FFFFD
        li      r8, '%'
        sb      r8, 0(r16)
        li      r8, 'd'
        sb      r8, 1(r16)
        sb      r0, 2(r16)
        move    r4, r16
        li      r5, 5
        li      r10, 0xA0
        jalr    r31, r10
        li      r9, 0x3F
        li      r8, 'x'
        sb      r8, 2(r16)
        move    r4, r16
        li      r5, 6
        jalr    r31, r10
        li      r9, 0x3F
";
    shows(&rt, TEXT, b"56x", b" BadPointer 80200000 80010048\n");
}

// As many bytes are read as the precision says. Without one the text has no end: nothing is written of it, nor of its spaces.
#[test]
fn a_text_that_ends_at_the_last_user_byte(rt: HostRuntime) {
    const TEXT: &[u8] = b"
start:
        li      r16, 0x801FFFFD
        li      r8, 'x'
        sb      r8, 0(r16)
        sb      r8, 1(r16)
        sb      r8, 2(r16)
        la      r4, three
        move    r5, r16
        li      r10, 0xA0
        jalr    r31, r10
        li      r9, 0x3F
        la      r4, all
        move    r5, r16
        jalr    r31, r10
        li      r9, 0x3F

three:  .asciiz \"%5.3s|\"
all:    .asciiz \"ab%10s\"
";
    shows(&rt, TEXT, b"  xxx|ab", b" BadPointer 80200000 80010044\n");
}

// The fourth argument is a word at sp + 16, which is read at its conversion.
#[test]
fn an_unaligned_stack_pointer(rt: HostRuntime) {
    const TEXT: &[u8] = b"
start:
        li      r29, 0x80100002
        la      r4, four
        li      r5, 1
        li      r6, 2
        li      r7, 3
        li      r10, 0xA0
        jalr    r31, r10
        li      r9, 0x3F

four:   .asciiz \"%d %d %d %d\"
";
    shows(&rt, TEXT, b"1 2 3 ", b" BadPointer 80100012 80010028\n");
}

// The fourth argument is the last word of user memory, and there is no fifth.
#[test]
fn a_stack_pointer_at_the_end_of_user_memory(rt: HostRuntime) {
    const TEXT: &[u8] = b"
start:
        li      r29, 0x801FFFEC
        li      r8, 4
        sw      r8, 16(r29)
        la      r4, five
        li      r5, 1
        li      r6, 2
        li      r7, 3
        li      r10, 0xA0
        jalr    r31, r10
        li      r9, 0x3F

five:   .asciiz \"%d %d %d %d %d\"
";
    shows(&rt, TEXT, b"1 2 3 4 ", b" BadPointer 80200000 80010030\n");
}

// By 0, and of 80000000h by -1.
#[test]
fn quotients_and_remainders(rt: HostRuntime) {
    const TEXT: &[u8] = b"
start:
        li      r16, 0xA0
        la      r17, rows
row:
        lw      r8, 0(r17)
        lw      r9, 4(r17)
        lw      r4, 8(r17)
        lw      r11, 12(r17)
        beq     r4, r0, done
        nop
        beq     r11, r0, unsigned
        nop
        div     r8, r9
        beq     r0, r0, print
        nop
unsigned:
        divu    r8, r9
print:
        mflo    r5
        mfhi    r6
        jalr    r31, r16
        li      r9, 0x3F                # printf
        beq     r0, r0, row
        addiu   r17, r17, 16
done:
        move    r4, r0
        jr      r16
        li      r9, 0x06                # exit

        .align  4
rows:   .word   7 0 words 0
        .word   7 0 numbers 1
        .word   -7 0 numbers 1
        .word   0x80000000 -1 words 1
        .word   0 0 0 0
words:  .asciiz \"%x %x\\n\"
numbers: .asciiz \"%d %d\\n\"
";
    shows(
        &rt,
        TEXT,
        b"ffffffff 7\n-1 7\n1 -7\n80000000 0\n",
        b" Exit 00000000\n",
    );
}
