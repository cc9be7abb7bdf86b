//! The calls on the console at their edges: a text that the budget cuts, the numbers of table B, a line without bytes and one at the end of memory. Each call is made by a program on the image.
use crate::hosts::{host_of, host_with, shows_with};
use psx_base::{MemoryHost, Out};
use psxk_run::psxk;
use std::process::Abort;

// Runs a program with a budget, by which it is to end: the host behind the run.
fn cut<R: AllocGlobal + Abort>(rt: &R, program: &[u8], budget: u32) -> MemoryHost {
    let mut host = host_of(rt, program);
    let word = format!(in rt.alloc(); "{budget}").expect(rt, "room");
    let words = ["run", "a.exe", "-", word.as_str()];
    assert_eq!(rt; psxk(rt.alloc(), &words, &mut host), 0);
    assert!(rt; host.sent(Out::Trace).ends_with(b" Budget\n"));
    host
}

// By the smallest budget behind which three bytes are written, these three are: no byte waits for the next one.
#[test]
fn a_budget_ends_a_text_behind_any_byte(rt: HostRuntime) {
    const TEXT: &[u8] = b"
start:
        la      r4, text
        li      r9, 0x3E                # puts
        li      r10, 0xA0
        jalr    r31, r10
        nop

text:   .asciiz \"hello\"
";
    let text = TEXT;
    let mut maker = host_with(&rt, "a.s", text);
    assert_eq!(&rt; psxk(rt.alloc(), &["asm", "a.s"], &mut maker), 0);
    // The greatest budget with fewer bytes lies within 511 steps of the program's begin.
    let mut fewer = 38_941u32;
    for more in [256, 128, 64, 32, 16, 8, 4, 2, 1] {
        let budget = fewer.saturating_add(more);
        if cut(&rt, maker.sent(Out::Ram), budget).sent(Out::Tty).len() < 3 {
            fewer = budget;
        }
    }
    let before = cut(&rt, maker.sent(Out::Ram), fewer);
    assert_eq!(&rt; before.sent(Out::Tty), b"he".as_slice());
    let behind = cut(&rt, maker.sent(Out::Ram), fewer.saturating_add(1));
    assert_eq!(&rt; behind.sent(Out::Tty), b"hel".as_slice());
}

#[test]
fn table_b_has_the_same_calls(rt: HostRuntime) {
    const TEXT: &[u8] = b"
start:
        li      r10, 0xB0
        li      r9, 0x3C                # getchar
        jalr    r31, r10
        nop
        move    r4, r2
        li      r9, 0x3D                # putchar
        jalr    r31, r10
        nop
        la      r4, place
        li      r9, 0x3E                # gets
        jalr    r31, r10
        nop
        li      r4, 1
        la      r5, place
        li      r6, 2
        li      r9, 0x35                # write
        jalr    r31, r10
        nop
        move    r4, r2
        li      r9, 0x38                # exit
        jr      r10
        nop

place:  .space  4
";
    shows_with(
        &rt,
        TEXT,
        b"1 byte 78\n1 byte 79\n1 byte 7A\n1 byte 0A\n",
        b"xyz",
        b" Exit 00000002\n",
    );
}

// getc waits as getchar does, and takes one byte alone.
#[test]
fn getc_waits_for_a_byte_and_answers_it(rt: HostRuntime) {
    const TEXT: &[u8] = b"
start:
        li      r10, 0xA0
        li      r4, 0
        li      r9, 0x08                # getc
        jalr    r31, r10
        nop
        sll     r16, r2, 8
        jalr    r31, r10
        nop
        or      r4, r16, r2
        li      r9, 0x06                # exit
        jr      r10
        nop
";
    shows_with(
        &rt,
        TEXT,
        b"43941 byte 41\n45941 byte FF\n",
        b"",
        b" Exit 000041FF\n",
    );
}

// A line feed alone ends a line of no bytes. The line behind it, with its zero, has just room before the end of the scratchpad.
#[test]
fn a_line_of_no_bytes_and_a_line_at_the_end_of_memory(rt: HostRuntime) {
    const TEXT: &[u8] = b"
start:
        li      r10, 0xA0
        la      r4, place
        li      r9, 0x3D                # gets
        jalr    r31, r10
        nop
        lhu     r16, 0(r4)              # 7800h: a zero, and an x behind it
        li      r4, 0x9F8003FD
        jalr    r31, r10
        nop
        li      r9, 0x3E                # puts
        jalr    r31, r10
        nop
        move    r4, r16
        li      r9, 0x06                # exit
        jr      r10
        nop

place:  .ascii  \"xx\"
";
    shows_with(
        &rt,
        TEXT,
        b"1 byte 0A\n1 byte 68\n1 byte 69\n1 byte 0D\n",
        b"hi",
        b" Exit 00007800\n",
    );
}
