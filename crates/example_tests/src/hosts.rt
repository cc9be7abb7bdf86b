//! Runs of test_hosts, for tests that end where there is no room for one, or where a run isn't as said.
use psx_base::Out;
use std::process::Abort;
use test_hosts::{TextRun, status_of};

// Assembles a text, runs it, and looks at what the program wrote and how its trace ends.
pub(crate) fn shows<R: AllocGlobal + Abort>(rt: &R, text: &[u8], tty: &[u8], stop: &[u8]) {
    shows_with(rt, text, b"", tty, stop);
}

// The same, with a schedule.
pub(crate) fn shows_with<R: AllocGlobal + Abort>(
    rt: &R,
    text: &[u8],
    schedule: &[u8],
    tty: &[u8],
    stop: &[u8],
) {
    let run = TextRun::new(rt.alloc(), text, schedule).expect(rt, "room");
    assert_eq!(rt; run.end(stop.len()), (0, status_of(stop), stop));
    assert_eq!(rt; run.host.sent(Out::Tty), tty, "{stop:?}");
}
