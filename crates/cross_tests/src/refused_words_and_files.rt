//! Words, files and hosts that a run isn't made or told with.
use crate::hosts::{host_of, program};
use psx_base::{MemoryHost, NoFailHost, Out};
use psxk_run::psxk;
use std::process::Abort;
use test_hosts::{HELLO, HELLO_TRACE, RUN};

#[test]
fn knows_its_words(rt: HostRuntime) {
    let usage =
        b"psxk: usage: run EXE SCHED BUDGET [CNF], image, asm TEXT, dis EXE, gen N\n".as_slice();
    for words in [
        &["run"][..],
        &["run", "a", "-", "0"],
        &[],
        &["run", "a.exe", "x", "1", "c", "d"],
        &["--help"],
        &["image", "a.exe"],
        &["dis"],
        &["asm", "a.s", "b.s"],
        &["gen", "0"],
        &["gen", "1001"],
    ] {
        let mut host = host_of(&rt, &program(&rt, &HELLO));
        assert_eq!(rt; psxk(rt.alloc(), words, &mut host), 2);
        assert_eq!(rt; host.sent(Out::Report), usage);
        assert_eq!(rt; host.sent(Out::Trace), b"".as_slice());
    }
}

// A file that is no program, and the end of its report.
fn refuses<R: AllocGlobal + Abort>(rt: &R, file: &[u8], report: &[u8]) {
    let mut host = host_of(rt, file);
    assert_eq!(rt; psxk(rt.alloc(), &RUN, &mut host), 3, "{report:?}");
    assert_eq!(rt; host.sent(Out::Report), report);
    assert_eq!(rt; host.sent(Out::Trace), b"".as_slice());
    assert_eq!(rt; host.sent(Out::Ram), b"".as_slice());
}

#[test]
fn refuses_what_is_no_program(rt: HostRuntime) {
    let mut file = program(&rt, &HELLO);
    file.truncate(2083);
    refuses(&rt, &file, b"psxk: exe: Truncated 2084\n");
    file.truncate(2047);
    refuses(&rt, &file, b"psxk: exe: Short\n");
    refuses(&rt, b"", b"psxk: exe: Short\n");
    let mut file = program(&rt, &HELLO);
    assert_eq!(rt; file.len(), 2084);
    file[0x18..0x1C].copy_from_slice(&[0xFC, 0xFF, 0, 0x80]);
    refuses(&rt, &file, b"psxk: exe: TextRange 8000FFFC\n");
    let mut file = program(&rt, &HELLO);
    assert_eq!(rt; file.len(), 2084);
    file[0x10] = 2;
    refuses(&rt, &file, b"psxk: exe: BadPc 80010002\n");
    let mut file = program(&rt, &HELLO);
    assert_eq!(rt; file.len(), 2084);
    file[0x28..0x2C].copy_from_slice(&[0, 0, 0x20, 0x80]);
    file[0x2C] = 4;
    refuses(&rt, &file, b"psxk: exe: FillRange 80200000\n");
}

#[test]
fn refuses_a_header_by_its_first_fault(rt: HostRuntime) {
    let mut file = program(&rt, &[0]);
    assert_eq!(rt; file.len(), 2052);
    file[0x1C..0x20].copy_from_slice(&[0, 8, 0, 0]);
    refuses(&rt, &file, b"psxk: exe: Truncated 4096\n");
    file[0x18..0x1C].copy_from_slice(&[0xFC, 0xFF, 0, 0x80]);
    refuses(&rt, &file, b"psxk: exe: TextRange 8000FFFC\n");
    file[0] = 0;
    refuses(&rt, &file, b"psxk: exe: NoMark\n");
}

#[test]
fn names_a_host_that_fails(rt: HostRuntime) {
    let hello = program(&rt, &HELLO);
    let mut host = host_of(&rt, &hello);
    host.fail_load(1).expect(&rt, "room");
    assert_eq!(rt; psxk(rt.alloc(), &RUN, &mut host), 5);
    assert_eq!(rt; host.sent(Out::Report), b"psxk: read a.exe\n".as_slice());
    assert_eq!(rt; host.sent(Out::Tty), b"".as_slice());
    let mut host = MemoryHost::new(rt.alloc(), 0).expect(&rt, "room");
    host.put("a.exe", &hello).expect(&rt, "put");
    assert_eq!(rt; psxk(rt.alloc(), &RUN, &mut host), 6);
    for out in [Out::Tty, Out::Trace, Out::Ram, Out::Report] {
        assert_eq!(rt; host.sent(out), b"".as_slice());
    }
    let mut host = NoFailHost::new(rt.alloc());
    assert_eq!(rt; psxk(rt.alloc(), &RUN, &mut host), 3);
    host.put("a.exe", &hello).expect(&rt, "put");
    assert_eq!(rt; psxk(rt.alloc(), &RUN, &mut host), 0);
}

// A run makes four sends: the console's bytes, the trace, and the two parts of the memory.
#[test]
fn each_send_may_fail(rt: HostRuntime) {
    let hello = program(&rt, &HELLO);
    for call in 1..6u64 {
        for after in 0..2usize {
            let mut host = host_of(&rt, &hello);
            host.fail_send(call, after).expect(&rt, "room");
            host.fail_load(2).expect(&rt, "room");
            let status = psxk(rt.alloc(), &RUN, &mut host);
            assert_eq!(rt; status, if call < 5 { 6 } else { 0 });
            assert!(rt; b"A".as_slice().starts_with(host.sent(Out::Tty)));
            assert!(rt; HELLO_TRACE.starts_with(host.sent(Out::Trace)));
            assert!(rt; call > 2 || host.sent(Out::Ram).is_empty());
        }
    }
}
