//! A schedule as text: each entry is a line.
ghost use Rattle.std.specs.Prelude.{◌≡◌, ◌⊎◌, ◌↔◌, ◌<◌, ◌+◌, ℕ, List, ◌++◌, Result, Ok, Err, IfOk, IfErr, IfSome, IfNone, IsTrue, false, length};
ghost use Rattle.psx_sched.specs.Accepted.{IsTold, BeginsWith, BeginsWithNone, IsScheduleOf, HasOneAnswer};
ghost use Rattle.psx_sched.specs.Line.{line, lines_of};
ghost use Rattle.psx_sched.specs.Schedule.{IsPlausible};
ghost use Rattle.psx_sched.specs.declared.schedule.Entry.{Entry};
ghost use Rattle.psx_sched.specs.declared.fault.SchedError.{SchedError};

use crate::fault::{LONGEST, MOST, SchedError};
use crate::line::line_of;
use crate::parts::candidate;
use crate::schedule::{Entry, Schedule, What};
use psx_base::Memory;
use psx_text::skip;
use std::alloc::Global;

// Whether a schedule may hold an entry.
fn is_plausible(entry: Entry) -> bool
    ensures { IsTrue result ↔ IsPlausible entry }
{
    if entry.count > 4_000_000_000 {
        return false;
    }
    match entry.what {
        What::Byte(_) => true,
        What::Line(number) => number <= 10,
    }
}

// Whether a text begins with the line of an entry.
fn begins_with(text: &[u8], entry: Entry) -> bool
    ensures begun { IsTrue result → BeginsWith text.now entry }
    ensures other { result ≡ false → ¬ BeginsWith text.now entry }
{
    text.starts_with(line_of(entry).as_slice())
}

// The entry whose line a text begins with.
fn read_line(text: &[u8]) -> Option<Entry>
    ensures found { IfSome result (λ entry. IsTold entry × BeginsWith text.now entry) }
    ensures none { IfNone result (BeginsWithNone text.now) }
{
    let entry = candidate(text);
    if !is_plausible(entry) {
        return None;
    }
    if begins_with(text, entry) {
        return Some(entry);
    }
    None
}

// How many bytes the line of an entry has.
fn line_len(entry: Entry) -> usize
    ensures value { result ≡ length (line entry) }
    ensures some { 0 < result }
{
    line_of(entry).len()
}

/// The law of accepted schedules: each text is the lines of one schedule, or has one first fault. The call does nothing.
pub fn schedule_or_fault(text: &[u8])
    ensures { HasOneAnswer text.now }
{}

impl Schedule {
    /// The schedule that a text is, or the text's first fault. Where memory is short, `Memory` comes in its place.
    pub fn read(alloc: Global, text: &[u8]) -> Result<Schedule, SchedError>
        ensures schedule { IfOk result (λ entries. IsScheduleOf text.now (Ok entries)) }
        ensures fault { IfErr result (λ e. (e ≡ SchedError.Memory) ⊎ IsScheduleOf text.now (Err e)) }
        ensures only { (answer : Result (List Entry) SchedError) → IsScheduleOf text.now answer
            → (result ≡ Err SchedError.Memory) ⊎ (result ≡ answer) }
    {
        if text.len() > LONGEST {
            return Err(SchedError::TooLong { limit: LONGEST });
        }
        let mut schedule = Schedule::new(alloc);
        let mut last = 0;
        let mut rest = text;
        while !rest.is_empty() {
            let count = schedule.entries().len();
            if count == MOST {
                return Err(SchedError::TooMany);
            }
            let line = count as u32 + 1;
            let Some(entry) = read_line(rest) else {
                return Err(SchedError::BadLine { line });
            };
            if entry.count < last {
                return Err(SchedError::OutOfOrder { line });
            }
            let Ok(()) = schedule.push(entry) else {
                return Err(SchedError::Memory);
            };
            last = entry.count;
            rest = skip(rest, line_len(entry));
        }
        Ok(schedule)
    }

    /// The one text that reads as this schedule.
    pub fn write(&self, alloc: Global) -> Result<Vec<u8>, Memory>
        ensures lines { IfOk result (λ text. text.items ≡ lines_of self.now) }
        ensures reads_back { IfOk result (λ text. IsScheduleOf text.items (Ok self.now)) }
        ensures only { IfOk result (λ text. (other : List ℕ) → IsScheduleOf other (Ok self.now) → other ≡ text.items) }
    {
        let mut text = Vec::new(alloc);
        for entry in self.entries() {
            let Ok(()) = text.extend_from_slice(line_of(*entry).as_slice()) else {
                return Err(Memory);
            };
        }
        Ok(text)
    }
}
