//! The programs, hosts and runs of test_hosts, for tests that end where there is no room for one, or where a run isn't as said.
use psx_base::{MemoryHost, Out};
use std::process::Abort;
use test_hosts::{TextRun, status_of};

// A program's file.
pub(crate) fn program<R: AllocGlobal + Abort>(rt: &R, words: &[u32]) -> Vec<u8> {
    test_hosts::program(rt.alloc(), words).expect(rt, "room")
}

// A host that holds one file.
pub(crate) fn host_with<R: AllocGlobal + Abort>(rt: &R, name: &str, file: &[u8]) -> MemoryHost {
    test_hosts::host_with(rt.alloc(), name, file).expect(rt, "room")
}

// A host that holds the program `a.exe`.
pub(crate) fn host_of<R: AllocGlobal + Abort>(rt: &R, file: &[u8]) -> MemoryHost {
    test_hosts::host_of(rt.alloc(), file).expect(rt, "room")
}

// Assembles a text, runs it, and looks at what the program wrote and how its trace ends.
pub(crate) fn shows<R: AllocGlobal + Abort>(rt: &R, text: &[u8], tty: &[u8], stop: &[u8]) {
    shows_with(rt, text, b"", tty, stop);
}

// The same, with a schedule.
pub(crate) fn shows_with<R: AllocGlobal + Abort>(
    rt: &R,
    text: &[u8],
    schedule: &[u8],
    tty: &[u8],
    stop: &[u8],
) {
    let host = runs_to(rt, text, schedule, stop);
    assert_eq!(rt; host.sent(Out::Tty), tty, "{stop:?}");
}

// Assembles a text and runs it with a schedule up to a stop: the host behind the run.
pub(crate) fn runs_to<R: AllocGlobal + Abort>(
    rt: &R,
    text: &[u8],
    schedule: &[u8],
    stop: &[u8],
) -> MemoryHost {
    let run = TextRun::new(rt.alloc(), text, schedule).expect(rt, "room");
    assert_eq!(rt; run.end(stop.len()), (0, status_of(stop), stop));
    run.host
}
