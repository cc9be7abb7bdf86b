//! The calls that take bytes of the console, and wait, each made by a program on the image. The program begins at the count 38941, and a byte of the schedule comes when its count does.
use crate::hosts::{runs_to, shows_with};
use psx_base::Out;
use std::process::Abort;

const GETCHAR: &[u8] = b"
start:
        li      r2, 5
        li      r4, 6
        li      r9, 0x3B                # getchar
        li      r10, 0xA0
        jalr    r31, r10                # at 80010010h, so r31 is 80010018h
        nop
        move    r4, r2
        li      r9, 0x06                # exit
        jr      r10
        nop
";

#[test]
fn getchar_waits_for_a_byte_and_answers_it(rt: HostRuntime) {
    shows_with(&rt, GETCHAR, b"43941 byte 41\n", b"", b" Exit 00000041\n");
    shows_with(&rt, GETCHAR, b"1 byte FF\n", b"", b" Exit 000000FF\n");
    shows_with(&rt, GETCHAR, b"43941 byte 00\n", b"", b" Exit 00000000\n");
}

// A try goes back to the gate: k0 (r26) is its address and k1 (r27) 0, and r2 and all others are as they were.
#[test]
fn a_try_changes_k0_and_k1_alone(rt: HostRuntime) {
    let host = runs_to(&rt, GETCHAR, b"43941 byte 41\n", b" Exit 00000041\n");
    let shown =
        b" 000000A0 00000401 00000000 00000000 00000000 00000005 00000000 00000006 00000000 00000000 00000000 00000000 0000003B 000000A0 \
00000000 00000000 00000000 00000000 00000000 00000000 00000000 00000000 00000000 00000000 00000000 00000000 00000000 00000000 00000000 \
000000A0 00000000 00000000 801FFF00 801FFF00 80010018\n"
            .as_slice();
    let trace = host.sent(Out::Trace);
    let tries = trace
        .windows(shown.len())
        .filter(|window| *window == shown)
        .count();
    assert!(rt; tries > 9);
}

// Each byte comes alone, so the line is gathered over several tries.
#[test]
fn gets_gathers_a_line_over_several_tries(rt: HostRuntime) {
    const TEXT: &[u8] = b"
start:
        la      r4, place
        li      r9, 0x3D                # gets
        li      r10, 0xA0
        jalr    r31, r10
        nop
        subu    r16, r2, r4             # the answer is the place
        li      r9, 0x3E                # puts
        jalr    r31, r10
        nop
        move    r4, r16
        li      r9, 0x06                # exit
        jr      r10
        nop

place:  .ascii  \"........\"
";
    shows_with(
        &rt,
        TEXT,
        b"43941 byte 68\n44941 byte 69\n45941 byte 0A\n",
        b"hi",
        b" Exit 00000000\n",
    );
}

// gets, gets and getchar: the bytes of the two lines and the one behind, each line in brackets.
const TWO_LINES: &[u8] = b"
start:
        li      r10, 0xA0
        li      r17, 2
line:   li      r4, '['
        li      r9, 0x3C                # putchar
        jalr    r31, r10
        nop
        la      r4, place
        li      r9, 0x3D                # gets
        jalr    r31, r10
        nop
        li      r9, 0x3E                # puts
        jalr    r31, r10
        nop
        li      r4, ']'
        li      r9, 0x3C
        jalr    r31, r10
        nop
        addiu   r17, r17, -1
        bne     r17, r0, line
        nop
        li      r9, 0x3B                # getchar
        jalr    r31, r10
        nop
        move    r4, r2
        li      r9, 0x06                # exit
        jr      r10
        nop

place:  .space  256
";

#[test]
fn two_lines_take_the_bytes_in_order(rt: HostRuntime) {
    const TEXT: &[u8] =
        b"43941 byte 61\n43941 byte 62\n44941 byte 0D\n44941 byte 63\n45941 byte 64\n45941 byte 65\n46941 byte 0A\n46941 byte 21\n";
    shows_with(&rt, TWO_LINES, TEXT, b"[ab][cde]", b" Exit 00000021\n");
}

// A line of so many bytes, a line feed, and the line `b`: the two lines that gets gives, and the byte behind them.
fn takes_lines<R: AllocGlobal + Abort>(
    rt: &R,
    size: usize,
    first: usize,
    second: &[u8],
    stop: &[u8],
) {
    let mut schedule = Vec::new(rt.alloc());
    for _ in 0..size {
        schedule
            .extend_from_slice(b"43941 byte 61\n")
            .expect(rt, "room");
    }
    schedule
        .extend_from_slice(b"43941 byte 0A\n43941 byte 62\n43941 byte 0A\n43941 byte 63\n")
        .expect(rt, "room");
    let mut tty = Vec::new(rt.alloc());
    tty.extend_from_slice(b"[").expect(rt, "room");
    for _ in 0..first {
        tty.extend_from_slice(b"a").expect(rt, "room");
    }
    for part in [b"][".as_slice(), second, b"]"] {
        tty.extend_from_slice(part).expect(rt, "room");
    }
    shows_with(rt, TWO_LINES, &schedule, &tty, stop);
}

#[test]
fn a_line_has_at_most_255_bytes(rt: HostRuntime) {
    takes_lines(&rt, 254, 254, b"b", b" Exit 00000063\n");
    // The 255th ends the line, and the line feed is the next line's.
    takes_lines(&rt, 255, 255, b"", b" Exit 00000062\n");
    takes_lines(&rt, 256, 255, b"a", b" Exit 00000062\n");
}

// gets(0) takes no byte.
#[test]
fn gets_of_0_answers_0_at_once(rt: HostRuntime) {
    const TEXT: &[u8] = b"
start:
        li      r10, 0xA0
        li      r4, 0
        li      r9, 0x3D                # gets
        jalr    r31, r10
        li      r2, 5
        sll     r16, r2, 8
        li      r9, 0x3B                # getchar
        jalr    r31, r10
        nop
        or      r4, r16, r2
        li      r9, 0x06                # exit
        jr      r10
        nop
";
    shows_with(&rt, TEXT, b"1 byte 41\n", b"", b" Exit 00000041\n");
}

#[test]
fn gets_stops_where_user_memory_ends_before_the_line(rt: HostRuntime) {
    const TEXT: &[u8] = b"
start:
        li      r4, 0x801FFFFE          # two words
        li      r9, 0x3D                # gets
        li      r10, 0xA0
        jalr    r31, r10                # at 80010010h, so r31 is 80010018h
        nop
";
    let host = runs_to(
        &rt,
        TEXT,
        b"1 byte 41\n1 byte 42\n1 byte 0A\n",
        b" BadPointer 80200000 80010018\n",
    );
    let end = host.sent(Out::Ram).get(0x1F_FFFE..0x20_0000);
    assert!(rt; end.expect(&rt, "main memory") == b"AB".as_slice());
}

#[test]
fn read_answers_how_many_came(rt: HostRuntime) {
    const TEXT: &[u8] = b"
start:
        li      r4, 0
        la      r5, place
        li      r6, 4
        li      r9, 0x02                # read
        li      r10, 0xA0
        jalr    r31, r10
        nop
        move    r16, r2
        move    r4, r5
        li      r9, 0x3E                # puts
        jalr    r31, r10
        nop
        move    r4, r16
        li      r9, 0x06                # exit
        jr      r10
        nop

place:  .space  8
";
    shows_with(
        &rt,
        TEXT,
        b"47941 byte 78\n47941 byte 79\n",
        b"xy",
        b" Exit 00000002\n",
    );
}

// Of three bytes that are due two are taken.
#[test]
fn read_takes_no_more_than_n_bytes(rt: HostRuntime) {
    const TEXT: &[u8] = b"
start:
        li      r4, 0
        la      r5, place
        li      r6, 2
        li      r9, 0x34                # read
        li      r10, 0xB0
        jalr    r31, r10
        nop
        sll     r16, r2, 8
        move    r4, r5
        li      r9, 0x3F                # puts
        jalr    r31, r10
        nop
        li      r4, 0
        li      r9, 0x3A                # getc
        jalr    r31, r10
        nop
        or      r4, r16, r2
        li      r9, 0x38                # exit
        jr      r10
        nop

place:  .space  8
";
    shows_with(
        &rt,
        TEXT,
        b"1 byte 78\n1 byte 79\n1 byte 7A\n",
        b"xy",
        b" Exit 0000027A\n",
    );
}

// Counts of 0 and less answer 0, and files that aren't open for reading FFFFFFFFh with the error 9. None of them waits.
#[test]
fn read_and_getc_refuse_other_files(rt: HostRuntime) {
    const TEXT: &[u8] = b"
start:
        li      r10, 0xB0
        li      r5, 0                   # no place is touched
        li      r4, 0
        li      r6, 0
        li      r9, 0x34                # read(0, 0, 0)
        jalr    r31, r10
        li      r2, 5
        move    r16, r2
        li      r6, -1
        jalr    r31, r10                # read(0, 0, -1)
        li      r2, 5
        or      r16, r16, r2
        li      r6, 1
        li      r4, 1
        jalr    r31, r10                # read(1, 0, 1): file 1 is open for writing
        nop
        addiu   r2, r2, 1
        or      r16, r16, r2
        li      r4, 2
        jalr    r31, r10                # file 2 is closed
        nop
        addiu   r2, r2, 1
        or      r16, r16, r2
        li      r4, 16
        li      r9, 0x3A                # getc(16)
        jalr    r31, r10
        nop
        addiu   r2, r2, 1
        or      r16, r16, r2
        li      r9, 0x54                # GetLastError
        jalr    r31, r10
        nop
        or      r4, r16, r2
        li      r9, 0x38                # exit
        jr      r10
        nop
";
    shows_with(&rt, TEXT, b"", b"", b" Exit 00000009\n");
}

// The place is looked at before a byte is asked for.
#[test]
fn read_stops_at_a_bad_place_before_a_byte_comes(rt: HostRuntime) {
    const FIRST: &[u8] = b"
start:
        li      r4, 0
        li      r5, 0x801FFFFF          # two words
        li      r6, 2
        li      r9, 0x02                # read
        li      r10, 0xA0
        jalr    r31, r10                # at 80010018h, so r31 is 80010020h
        nop
";
    const SECOND: &[u8] = b"
start:
        li      r4, 0
        li      r5, 0
        li      r6, 1
        li      r9, 0x02                # read(0, 0, 1)
        li      r10, 0xA0
        jalr    r31, r10                # at 80010014h, so r31 is 8001001Ch
        nop
";
    let host = runs_to(
        &rt,
        FIRST,
        b"43941 byte 41\n",
        b" BadPointer 80200000 80010020\n",
    );
    let end = host.sent(Out::Ram).get(0x1F_FFFF..0x20_0000);
    assert!(rt; end.expect(&rt, "main memory") == b"A".as_slice());
    shows_with(&rt, SECOND, b"", b"", b" BadPointer 00000000 8001001C\n");
}
