//! Programs of random words, calls, handles and callbacks: each ends by a stop with a name, and its trace is read back.
use crate::hosts::host_with_schedule;
use crate::programs::{Kind, program_of, schedule_of};
use psx_base::{MemoryHost, Out, Stop};
use psx_trace::{Item, Trace, stop_text};
use psxk_run::psxk;
use std::ops::Range;
use std::process::Abort;

// A program begins at the count 38,941.
const RUN_SHORT: [&str; 4] = ["run", "a.exe", "s", "60000"];

// The items of a run's trace: as many as it has lines.
fn items_of<R: AllocGlobal + Abort>(rt: &R, host: &MemoryHost, seed: u32) -> Vec<Item> {
    let trace = host.sent(Out::Trace);
    assert!(rt; trace.len() < 0x1_0000_0000);
    let lines = trace.iter().filter(|byte| **byte == b'\n').count();
    let Ok(items) = Trace::read(rt.alloc(), trace) else {
        panic!(rt; "no items: {seed}");
    };
    assert_eq!(rt; items.len(), lines, "{seed}");
    items
}

// The report of a stop: none of an exit and of a spent budget.
fn reports<R: AllocGlobal + Abort>(rt: &R, host: &MemoryHost, stop: Stop) -> bool {
    let mut report = Vec::new(rt.alloc());
    if !matches!(stop, Stop::Exit { .. } | Stop::Budget) {
        report
            .extend_from_slice(b"psxk: stopped ")
            .expect(rt, "room");
        report
            .extend_from_slice(stop_text(stop).as_slice())
            .expect(rt, "room");
        report.extend_from_slice(b"\n").expect(rt, "room");
    }
    host.sent(Out::Report) == report.as_slice()
}

// Runs a program. Its trace begins with the return to it, and ends with the stop that the status and the report tell of. How often the kernel was entered.
fn runs<R: AllocGlobal + Abort>(rt: &R, kind: Kind, seed: u32) -> usize {
    let words = program_of(rt.alloc(), kind, seed).expect(rt, "room");
    let schedule = schedule_of(rt.alloc(), seed).expect(rt, "room");
    let mut host = host_with_schedule(rt, &words, &schedule);
    let status = psxk(rt.alloc(), &RUN_SHORT, &mut host);
    let items = items_of(rt, &host, seed);
    assert_eq!(rt; items.first().copied(), Some(Item::B { count: 38_941 }));
    let Some(Item::S { count, stop }) = items.last().copied() else {
        panic!(rt; "no stop: {seed}");
    };
    let status_of = if matches!(stop, Stop::Exit { .. } | Stop::Budget) {
        0
    } else {
        1
    };
    assert_eq!(rt; status, status_of, "{seed}");
    assert!(rt; reports(rt, &host, stop), "{seed}");
    assert!(rt;
        count == 60_000 || count < 60_000 && stop != Stop::Budget,
        "{seed}"
    );
    assert_eq!(rt; host.sent(Out::Ram).len(), 2_098_176);
    items
        .iter()
        .filter(|item| matches!(item, Item::E { .. }))
        .count()
}

// Runs programs of a kind, twenty or more: how often the kernel was entered in all. It is to be entered once a program at least, on average.
fn run_all<R: AllocGlobal + Abort>(rt: &R, kind: Kind, seeds: Range<u32>) -> usize {
    let mut entries = 0usize;
    for seed in seeds {
        entries = entries.wrapping_add(runs(rt, kind, seed));
    }
    entries
}

#[test]
fn random_words(rt: HostRuntime) {
    assert!(rt; run_all(&rt, Kind::Words, 1..21) >= 20);
}

#[test]
fn more_random_words(rt: HostRuntime) {
    assert!(rt; run_all(&rt, Kind::Words, 21..43) >= 20);
}

#[test]
fn random_instructions(rt: HostRuntime) {
    assert!(rt; run_all(&rt, Kind::Instructions, 1..21) >= 20);
}

#[test]
fn more_random_instructions(rt: HostRuntime) {
    assert!(rt; run_all(&rt, Kind::Instructions, 21..43) >= 20);
}

#[test]
fn random_calls(rt: HostRuntime) {
    assert!(rt; run_all(&rt, Kind::Calls, 1..21) >= 20);
}

#[test]
fn more_random_calls(rt: HostRuntime) {
    assert!(rt; run_all(&rt, Kind::Calls, 21..43) >= 20);
}

#[test]
fn random_handles(rt: HostRuntime) {
    assert!(rt; run_all(&rt, Kind::Handles, 1..21) >= 20);
}

#[test]
fn more_random_handles(rt: HostRuntime) {
    assert!(rt; run_all(&rt, Kind::Handles, 21..43) >= 20);
}

#[test]
fn random_callbacks(rt: HostRuntime) {
    assert!(rt; run_all(&rt, Kind::Callbacks, 1..21) >= 20);
}

#[test]
fn more_random_callbacks(rt: HostRuntime) {
    assert!(rt; run_all(&rt, Kind::Callbacks, 21..43) >= 20);
}
