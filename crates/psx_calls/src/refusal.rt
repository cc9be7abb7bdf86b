//! Why nothing is shown: the status and the line that is reported.
ghost use Rattle.std.specs.Prelude.{◌≡◌, ◌≤◌, ◌+◌, ◌++◌, length, decimal};
ghost use Rattle.arrayvec.specs.ArrayVec.{array_vec_len};
ghost use Rattle.psx_calls.specs.Refusals.{fault_text, report, report_text, status_of};

use crate::shown::Fault;
use arrayvec::ArrayVec;
use itoa::Buffer;
use psx_text::put;

/// Why nothing is shown.
#[derive(Clone, Copy, PartialEq, Eq, Debug)]
pub enum Refusal {
    /// The words are in no form.
    Usage,
    /// Standard input can't be read.
    Read,
    /// The trace has a fault, or there is want of memory.
    Trace(Fault),
}

/// The bytes of a line that is reported.
pub type ReportLine = ArrayVec<u8, 128>;

/// The status that the program ends with.
pub fn status_of(refusal: Refusal) -> u8
    ensures { result ≡ status_of refusal }
{
    match refusal {
        Refusal::Usage => 2,
        Refusal::Read => 5,
        Refusal::Trace(Fault::Memory) => 7,
        Refusal::Trace(_) => 1,
    }
}

// A text.
fn named(text: &[u8]) -> ReportLine
    requires { length text.now ≤ 60 }
    ensures items { result.items ≡ text.now }
    ensures len { array_vec_len result ≡ length text.now }
{
    let mut line = ReportLine::new();
    put(&mut line, text);
    line
}

// A text and a number in decimal.
fn with_number(text: &[u8], number: u64) -> ReportLine
    requires { length text.now ≤ 60 }
    ensures items { result.items ≡ text.now ++ decimal number }
    ensures len { array_vec_len result ≤ 100 }
{
    let mut line = named(text);
    let mut buffer = Buffer::new();
    put(&mut line, buffer.format(number).as_bytes());
    line
}

// What is wrong with a trace.
fn fault_text(fault: Fault) -> ReportLine
    ensures items { result.items ≡ fault_text fault }
    ensures len { array_vec_len result ≤ 100 }
{
    match fault {
        Fault::TooLong { limit } => with_number(b"psx_calls: trace: TooLong ", limit as u64),
        Fault::BadLine { line } => with_number(b"psx_calls: trace: BadLine ", line),
        Fault::Misplaced { line } => with_number(b"psx_calls: trace: Misplaced ", line),
        Fault::Memory => named(b"psx_calls: memory"),
    }
}

// What is reported, without the line feed.
fn report_text(refusal: Refusal) -> ReportLine
    ensures items { result.items ≡ report_text refusal }
    ensures len { array_vec_len result ≤ 100 }
{
    match refusal {
        Refusal::Usage => named(b"psx_calls: usage: psx_calls [hex|dec] <psxk.trace"),
        Refusal::Read => named(b"psx_calls: read"),
        Refusal::Trace(fault) => fault_text(fault),
    }
}

/// The line that is reported.
pub fn report(refusal: Refusal) -> ReportLine
    ensures { result.items ≡ report refusal }
{
    let mut line = report_text(refusal);
    line.push(b'\n');
    line
}
