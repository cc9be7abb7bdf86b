//! Runs whose schedule takes a count from a first run without one, and what is read from their traces.
use crate::hosts::runs_to;
use psx_base::{MemoryHost, Out};
use std::process::Abort;

// The count in the n-th line of a trace that begins with a letter, from 1 on; 0 where there is none.
pub(crate) fn count_of(trace: &[u8], letter: u8, n: usize) -> u64 {
    let mut left = n;
    let mut begins = true;
    let mut reads = false;
    let mut count = 0u64;
    for byte in trace {
        if *byte == b'\n' {
            if reads {
                return count;
            }
            begins = true;
        } else if begins {
            begins = false;
            if *byte == letter {
                left = left.wrapping_sub(1);
                reads = left == 0;
            }
        } else if reads && byte.is_ascii_digit() {
            count = count
                .wrapping_mul(10)
                .wrapping_add(u64::from(*byte).wrapping_sub(48));
        } else if reads && count > 0 {
            return count;
        }
    }
    count
}

// How often bytes stand in others.
pub(crate) fn times(bytes: &[u8], part: &[u8]) -> usize {
    let mut found = 0usize;
    for at in 0..bytes.len() {
        if bytes.get(at..).is_some_and(|rest| rest.starts_with(part)) {
            found = found.wrapping_add(1);
        }
    }
    found
}

// A schedule's line: a count in decimal, and what comes then.
pub(crate) fn push_entry<R: AllocGlobal + Abort>(
    rt: &R,
    schedule: &mut Vec<u8>,
    count: u64,
    what: &[u8],
) {
    let mut digits = [b'0'; 20];
    let mut rest = count;
    let mut first = 20;
    for (place, digit) in digits.iter_mut().enumerate().rev() {
        if rest > 0 {
            first = place;
        }
        *digit = b"0123456789"[(rest % 10) as usize];
        rest /= 10;
    }
    let digits = digits.get(first..).expect(rt, "digits");
    schedule.extend_from_slice(digits).expect(rt, "room");
    schedule.extend_from_slice(what).expect(rt, "room");
}

// Runs a text twice to one stop: without a schedule, and then with entries at so many counts behind its n-th return to the program.
pub(crate) fn runs_behind<R: AllocGlobal + Abort>(
    rt: &R,
    text: &[u8],
    n: usize,
    entries: &[(u64, &[u8])],
    stop: &[u8],
) -> MemoryHost {
    let first = runs_to(rt, text, b"", stop);
    let from = count_of(first.sent(Out::Trace), b'X', n);
    let mut schedule = Vec::new(rt.alloc());
    for entry in entries {
        push_entry(rt, &mut schedule, from.wrapping_add(entry.0), entry.1);
    }
    runs_to(rt, text, &schedule, stop)
}
