//! The commands that send one text: the ROM, the printed words of a program, and the program of an assembly text.
use crate::hosts::{host_of, host_with, program};
use psx_base::{MemoryHost, Out};
use psxk_run::psxk;
use std::process::Abort;
use test_hosts::{HELLO, ROOM, RUN};

#[test]
fn sends_the_image(rt: HostRuntime) {
    let mut host = MemoryHost::new(rt.alloc(), ROOM).expect(&rt, "room");
    assert_eq!(rt; psxk(rt.alloc(), &["image"], &mut host), 0);
    let rom = host.sent(Out::Ram);
    assert_eq!(rt; rom.len(), 524_288);
    // lui r8 at reset, and the SYSCALL of the gate A0h
    assert_eq!(rt; rom.get(3).copied(), Some(0x3C));
    assert_eq!(rt; rom.get(0x100A0).copied(), Some(0x0C));
    assert_eq!(rt; host.sent(Out::Report), b"".as_slice());
    assert_eq!(rt; host.sent(Out::Tty), b"".as_slice());
    host.fail_send(2, 100).expect(&rt, "room");
    assert_eq!(rt; psxk(rt.alloc(), &["image"], &mut host), 6);
    assert_eq!(rt; host.sent(Out::Ram).len(), 524_388);
}

// The text that a program is printed as.
fn prints<R: AllocGlobal + Abort>(rt: &R, file: &[u8], text: &[u8]) {
    let mut host = host_of(rt, file);
    assert_eq!(rt; psxk(rt.alloc(), &["dis", "a.exe"], &mut host), 0);
    assert_eq!(rt; host.sent(Out::Tty), text);
    assert_eq!(rt; host.sent(Out::Report), b"".as_slice());
}

#[test]
fn prints_programs(rt: HostRuntime) {
    const TEXT: &[u8] = b".org 0x80010000
addiu r4, r0, 65
addiu r9, r0, 60
addiu r10, r0, 160
jalr r31, r10
sll r0, r0, 0
addiu r4, r0, 0
addiu r9, r0, 6
jr r10
sll r0, r0, 0
";
    prints(&rt, &program(&rt, &HELLO), TEXT);
    // five bytes from 80010003h on: three zero bytes in front, none behind
    let mut file = program(&rt, &[0x0041_0000, 0x0000_0024]);
    assert_eq!(rt; file.len(), 2056);
    file[0x18] = 3;
    file[0x1C] = 5;
    prints(
        &rt,
        &file,
        b".org 0x80010000\nsll r0, r0, 0\naddiu r0, r0, 16640\n",
    );
}

#[test]
fn prints_no_other_file(rt: HostRuntime) {
    let mut host = host_of(&rt, b"PS-X EXE");
    assert_eq!(rt; psxk(rt.alloc(), &["dis", "a.exe"], &mut host), 3);
    assert_eq!(rt; host.sent(Out::Report), b"psxk: exe: Short\n".as_slice());
    assert_eq!(rt; host.sent(Out::Tty), b"".as_slice());
    host.fail_load(2).expect(&rt, "room");
    assert_eq!(rt; psxk(rt.alloc(), &["dis", "a.exe"], &mut host), 5);
}

// The status and the report of a text, and the file that it gives.
fn assembles<R: AllocGlobal + Abort>(rt: &R, text: &[u8]) -> MemoryHost {
    let mut host = host_with(rt, "a.s", text);
    assert_eq!(rt; psxk(rt.alloc(), &["asm", "a.s"], &mut host), 0);
    assert_eq!(rt; host.sent(Out::Report), b"".as_slice());
    host
}

#[test]
fn assembles_programs(rt: HostRuntime) {
    // the first word of a branch that reaches as far as it can
    let text = b"start: beq r0, r0, far\n.space 131068\nfar: nop\n";
    let host = assembles(&rt, text);
    let file = host.sent(Out::Ram);
    // 131,076 bytes, up to a multiple of 2,048
    assert_eq!(rt; file.len(), 0x800 + 133_120);
    assert!(rt; file[0x800..].starts_with(&[0xFF, 0x7F, 0x00, 0x10]));
    // in the middle of 2,048 bytes: lui and ori, behind zeros
    let host = assembles(&rt, b".org 0x80010804\nnop\nstart: la r4, 0x80012345\n");
    let file = host.sent(Out::Ram);
    assert_eq!(rt; file.len(), 0x1000);
    assert!(rt; file.starts_with(b"PS-X EXE"));
    assert!(rt; file[0x10..].starts_with(&[0x08, 0x08, 0x01, 0x80]));
    assert!(rt; file[0x18..].starts_with(&[0x00, 0x08, 0x01, 0x80]));
    assert!(rt; file[0x808..].starts_with(&[0x01, 0x80, 0x04, 0x3C, 0x45, 0x23, 0x84, 0x34]));
    // nothing placed
    let host = assembles(&rt, b".org 0x80020000\nstart:\n");
    let file = host.sent(Out::Ram);
    assert_eq!(rt; file.len(), 0x800);
    assert!(rt; file[0x10..].starts_with(&[0x00, 0x00, 0x01, 0x80]));
    let _host = assembles(&rt, b"");
}

// A text with a fault.
fn refuses<R: AllocGlobal + Abort>(rt: &R, text: &[u8], report: &[u8]) {
    let mut host = host_with(rt, "a.s", text);
    assert_eq!(rt;
        psxk(rt.alloc(), &["asm", "a.s"], &mut host),
        8,
        "{report:?}"
    );
    assert_eq!(rt; host.sent(Out::Report), report);
    assert_eq!(rt; host.sent(Out::Ram), b"".as_slice());
}

#[test]
fn names_the_fault_of_a_text(rt: HostRuntime) {
    refuses(
        &rt,
        b"start: beq r0, r0, far\n.space 131072\nfar: nop\n",
        b"psxk: text: line 1: Range 80030004\n",
    );
    refuses(&rt, b"x: nop\nx: nop\n", b"psxk: text: line 2: Twice x\n");
    refuses(&rt, b"foo r1\n", b"psxk: text: line 1: UnknownWord\n");
    refuses(
        &rt,
        b"\n j nowhere\n",
        b"psxk: text: line 2: NoLabel nowhere\n",
    );
}

// A loop over the bytes of a text, as docs/formats.md has it.
const HELLO_TEXT: &[u8] = b"start:  la r8, text        # two words: lui and ori
next:   lbu r4, 0(r8)
        addiu r8, r8, 1    # in the load's delay
        beq r4, r0, done
        li r9, 0x3C        # in the branch's slot
        li r10, 0xA0
        jalr r31, r10
        nop
        b next
        nop
done:   li r10, 0xA0
        jr r10
        li r9, 6
text:   .asciiz \"hello\\n\"
";

#[test]
fn runs_what_it_assembles(rt: HostRuntime) {
    let made = assembles(&rt, HELLO_TEXT);
    let mut host = host_of(&rt, made.sent(Out::Ram));
    assert_eq!(rt; psxk(rt.alloc(), &RUN, &mut host), 0);
    assert_eq!(rt; host.sent(Out::Tty), b"hello\n".as_slice());
}
