//! The calls on files that don't wait, each made by a program on the image.
use crate::hosts::{host_of, host_with, shows};
use psx_base::{MemoryHost, Out};
use psxk_run::psxk;
use std::process::Abort;
use test_hosts::RUN;

// What follows each program: `keep` makes the call of r9 by the gate of r10, and keeps its answer and the last error behind r17, from 80020000h on.
const KEEP: &[u8] = b"
keep:   move    r20, r31
        jalr    r31, r10
        nop
        sw      r2, 0(r17)
        li      r9, 0x54                # GetLastError
        li      r11, 0xB0
        jalr    r31, r11
        nop
        sw      r2, 4(r17)
        addiu   r17, r17, 8
        jr      r20
        nop

tty:    .asciiz \"tty00:\"
";

// What comes before: r17, and the gate of table A.
const BEGIN: &[u8] = b"
start:
        li      r17, 0x80020000
        li      r10, 0xA0
";

// What comes last: exit(0).
const END: &[u8] = b"
        li      r4, 0
        li      r9, 0x06                # exit
        li      r10, 0xA0
        jr      r10
        nop
";

// Runs a program of calls, and looks at what it wrote and kept.
fn keeps<R: AllocGlobal + Abort>(rt: &R, calls: &[u8], tty: &[u8], kept: &[(u32, u32)]) {
    let mut text = Vec::new(rt.alloc());
    for part in [BEGIN, calls, END, KEEP] {
        text.extend_from_slice(part).expect(rt, "room");
    }
    let mut maker = host_with(rt, "a.s", &text);
    assert_eq!(rt; psxk(rt.alloc(), &["asm", "a.s"], &mut maker), 0);
    let mut host = host_of(rt, maker.sent(Out::Ram));
    assert_eq!(rt; psxk(rt.alloc(), &RUN, &mut host), 0);
    assert_eq!(rt; host.sent(Out::Tty), tty);
    let mut words = Vec::new(rt.alloc());
    for (answer, error) in kept {
        words
            .extend_from_slice(&answer.to_le_bytes())
            .expect(rt, "room");
        words
            .extend_from_slice(&error.to_le_bytes())
            .expect(rt, "room");
    }
    // Behind them nothing is kept.
    words.extend_from_slice(&[0; 8]).expect(rt, "room");
    let (_, memory) = host
        .sent(Out::Ram)
        .split_at_checked(0x2_0000)
        .expect(rt, "main memory");
    assert!(rt; memory.starts_with(&words));
}

#[test]
fn a_file_is_opened_written_and_closed(rt: HostRuntime) {
    const TEXT: &[u8] = b"
        la      r4, tty
        li      r5, 3                   # for reading and writing
        li      r9, 0x00                # open
        jal     keep
        nop
        la      r4, cdrom
        li      r9, 0x00
        jal     keep
        nop
        li      r4, 2
        la      r5, abc
        li      r6, 3
        li      r9, 0x03                # write
        jal     keep
        nop
        li      r9, 0x04                # close
        jal     keep
        nop
        li      r9, 0x04
        jal     keep
        nop
        b       end
        nop
cdrom:  .asciiz \"cdrom:\"
abc:    .ascii  \"abc\"
        .align  4
end:
";
    keeps(
        &rt,
        TEXT,
        b"abc",
        &[
            (2, 0),
            (0xFFFF_FFFF, 19),
            (3, 19),
            (2, 19),
            (0xFFFF_FFFF, 9),
        ],
    );
}

// The mode is looked at before the name, and as a number without sign; the name is compared up to the byte that decides.
#[test]
fn open_refuses_a_mode_and_then_a_name(rt: HostRuntime) {
    const TEXT: &[u8] = b"
        li      r10, 0xB0
        li      r4, 0xFFFF              # no user memory
        li      r5, 0
        li      r9, 0x32                # open
        jal     keep
        nop
        li      r4, 0
        li      r5, 1
        li      r9, 0x32
        jal     keep
        nop
        li      r5, 4
        li      r9, 0x32
        jal     keep
        nop
        la      r4, short
        li      r5, 2
        li      r9, 0x32
        jal     keep
        nop
        la      r4, tty
        li      r5, 0xFFFFFFFF
        li      r9, 0x32
        jal     keep
        nop
        li      r4, 0x801FFFFF          # the last byte of main memory, a zero
        li      r5, 2
        li      r9, 0x32
        jal     keep
        nop
        la      r4, long
        li      r9, 0x32
        jal     keep
        nop
        li      r4, 0x801FFFF9          # six words: the name ends with main memory
        li      r8, 0x74
        sb      r8, 0(r4)
        sb      r8, 1(r4)
        li      r8, 0x79
        sb      r8, 2(r4)
        li      r8, 0x30
        sb      r8, 3(r4)
        sb      r8, 4(r4)
        li      r8, 0x3A
        sb      r8, 5(r4)
        li      r9, 0x32
        jal     keep
        nop
        b       end
        nop
short:  .asciiz \"tty00\"
long:   .asciiz \"tty00:0\"
        .align  4
end:
";
    keeps(
        &rt,
        TEXT,
        b"",
        &[
            (0xFFFF_FFFF, 22),
            (0xFFFF_FFFF, 19),
            (0xFFFF_FFFF, 22),
            (0xFFFF_FFFF, 19),
            (0xFFFF_FFFF, 22),
            (0xFFFF_FFFF, 19),
            (0xFFFF_FFFF, 19),
            (2, 19),
        ],
    );
}

// Files 0 and 1 are open at the start, for reading and for writing; a file's number is the whole register.
#[test]
fn a_file_that_is_not_open_for_writing_refuses(rt: HostRuntime) {
    const TEXT: &[u8] = b"
        li      r4, 1
        la      r5, tty
        li      r6, 5
        li      r9, 0x03                # write
        jal     keep
        nop
        li      r4, 0
        li      r9, 0x03
        jal     keep
        nop
        li      r4, 0x10000001
        li      r9, 0x03
        jal     keep
        nop
        li      r4, 1
        li      r6, 0xFFFFFFFF          # a count below 0
        li      r9, 0x03
        jal     keep
        nop
        li      r5, 0
        li      r6, 0                   # no byte is touched
        li      r9, 0x03
        jal     keep
        nop
        li      r4, 0x241               # the low byte is A
        li      r5, 1
        li      r9, 0x09                # putc
        jal     keep
        nop
        li      r5, 16
        li      r9, 0x09
        jal     keep
        nop
        li      r10, 0xB0
        li      r5, 0
        li      r9, 0x3B
        jal     keep
        nop
        li      r4, 16
        li      r9, 0x36                # close
        jal     keep
        nop
        li      r4, 1
        li      r9, 0x36
        jal     keep
        nop
        li      r5, 1
        li      r9, 0x3B
        jal     keep
        nop
";
    keeps(
        &rt,
        TEXT,
        b"tty00A",
        &[
            (5, 0),
            (0xFFFF_FFFF, 9),
            (0xFFFF_FFFF, 9),
            (0, 9),
            (0, 9),
            (0x41, 9),
            (0xFFFF_FFFF, 9),
            (0xFFFF_FFFF, 9),
            (0xFFFF_FFFF, 9),
            (1, 9),
            (0xFFFF_FFFF, 9),
        ],
    );
}

// 14 are opened, then none is left; the lowest that was closed is opened first.
#[test]
fn sixteen_files_are_open_and_no_seventeenth(rt: HostRuntime) {
    const TEXT: &[u8] = b"
        li      r16, 15
more:   la      r4, tty
        li      r5, 2
        li      r9, 0x00                # open
        jal     keep
        addiu   r16, r16, -1
        bne     r16, r0, more
        nop
        li      r4, 9
        li      r9, 0x04                # close
        jal     keep
        nop
        li      r4, 0
        li      r9, 0x04
        jal     keep
        nop
        la      r4, tty
        li      r9, 0x00
        jal     keep
        nop
        li      r9, 0x00
        jal     keep
        nop
        li      r9, 0x00
        jal     keep
        nop
";
    keeps(
        &rt,
        TEXT,
        b"",
        &[
            (2, 0),
            (3, 0),
            (4, 0),
            (5, 0),
            (6, 0),
            (7, 0),
            (8, 0),
            (9, 0),
            (10, 0),
            (11, 0),
            (12, 0),
            (13, 0),
            (14, 0),
            (15, 0),
            (0xFFFF_FFFF, 24),
            (9, 24),
            (0, 24),
            (0, 24),
            (9, 24),
            (0xFFFF_FFFF, 24),
        ],
    );
}

#[test]
fn write_sends_the_bytes_before_the_first_bad_address(rt: HostRuntime) {
    const TEXT: &[u8] = b"
start:
        li      r4, 1
        li      r5, 0x801FFFFE          # two words; the last two bytes of main memory
        li      r9, 0x4241
        sh      r9, 0(r5)
        li      r6, 4
        li      r9, 0x03                # write
        li      r10, 0xA0
        jalr    r31, r10                # at 80010020h, so r31 is 80010028h
        nop
";
    shows(&rt, TEXT, b"AB", b" BadPointer 80200000 80010028\n");
}

#[test]
fn write_sends_all_bytes_up_to_the_end_of_memory(rt: HostRuntime) {
    const TEXT: &[u8] = b"
start:
        li      r4, 1
        li      r5, 0x801FFFFE          # the last two bytes of main memory
        li      r9, 0x4241
        sh      r9, 0(r5)
        li      r6, 2
        li      r9, 0x03                # write
        li      r10, 0xA0
        jalr    r31, r10
        nop
        move    r4, r2
        li      r9, 0x06                # exit
        jr      r10
        nop
";
    shows(&rt, TEXT, b"AB", b" Exit 00000002\n");
}

// In this group no pointer 0 is special.
#[test]
fn write_from_0_stops(rt: HostRuntime) {
    const TEXT: &[u8] = b"
start:
        li      r4, 1
        li      r5, 0
        li      r6, 1
        li      r9, 0x03                # write
        li      r10, 0xA0
        jalr    r31, r10                # at 80010014h, so r31 is 8001001Ch
        nop
";
    shows(&rt, TEXT, b"", b" BadPointer 00000000 8001001C\n");
}

#[test]
fn a_name_that_ends_with_user_memory_stops_open(rt: HostRuntime) {
    const TEXT: &[u8] = b"
start:
        li      r4, 0x801FFFFE          # two words; the last two bytes of main memory
        li      r9, 0x7474
        sh      r9, 0(r4)
        li      r5, 1
        li      r9, 0x00                # open
        li      r10, 0xA0
        jalr    r31, r10                # at 8001001Ch, so r31 is 80010024h
        nop
";
    shows(&rt, TEXT, b"", b" BadPointer 80200000 80010024\n");
}
