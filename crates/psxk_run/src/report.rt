//! The lines that are reported. They take no memory.
ghost use Rattle.std.specs.Prelude.{◌≡◌, ◌≤◌, ◌+◌, ◌++◌, length, decimal, codes};
ghost use Rattle.arrayvec.specs.ArrayVec.{array_vec_len};
ghost use Rattle.psx_trace.specs.Digits.{field};
ghost use Rattle.psx_trace.specs.StopText.{stop_text};
ghost use Rattle.psxk_run.specs.TextParts.{fault_head, error_head, error_label};
ghost use Rattle.psxk_run.specs.Reports.{exe_error_text, exe_line, schedule_error_text, schedule_line, config_error_text, config_line, stop_line};

use crate::configuration::ConfError;
use arrayvec::ArrayVec;
use itoa::Buffer;
use psx_asm::{AsmError, AsmFault};
use psx_base::Stop;
use psx_exe::ExeError;
use psx_sched::SchedError;
use psx_text::put;
use psx_trace::stop_text;
use psx_trace::text::put_field;

/// The bytes of a line.
pub type ReportLine = ArrayVec<u8, 128>;

// A name alone.
fn named(name: &[u8]) -> ReportLine
    requires { length name.now ≤ 12 }
    ensures items { result.items ≡ name.now }
    ensures len { array_vec_len result ≡ length name.now }
{
    let mut text = ReportLine::new();
    put(&mut text, name);
    text
}

// A name and an address.
fn with_address(name: &[u8], at: u32) -> ReportLine
    requires { length name.now ≤ 12 }
    ensures items { result.items ≡ name.now ++ field at }
    ensures len { array_vec_len result ≤ 50 }
{
    let mut text = named(name);
    put_field(&mut text, at);
    text
}

// A name, which ends with a space, and a number in decimal.
fn with_number(name: &[u8], number: u64) -> ReportLine
    requires { length name.now ≤ 12 }
    ensures items { result.items ≡ name.now ++ decimal number }
    ensures len { array_vec_len result ≤ 50 }
{
    let mut text = named(name);
    let mut buffer = Buffer::new();
    put(&mut text, buffer.format(number).as_bytes());
    text
}

// The text of what makes a file no program.
#[tactic(auto, unfolding(crate::specs::Reports::exe_error_text))]
fn exe_error_text(error: ExeError) -> ReportLine
    ensures items { result.items ≡ exe_error_text error }
    ensures len { array_vec_len result ≤ 50 }
{
    match error {
        ExeError::TooLong { limit } => with_number(b"TooLong ", limit as u64),
        ExeError::Short => named(b"Short"),
        ExeError::NoMark => named(b"NoMark"),
        ExeError::TextRange { at } => with_address(b"TextRange", at),
        ExeError::Truncated { need } => with_number(b"Truncated ", need),
        ExeError::FillRange { at } => with_address(b"FillRange", at),
        ExeError::BadPc { pc } => with_address(b"BadPc", pc),
        ExeError::Memory => named(b"Memory"),
    }
}

// A text between a head and a line feed.
fn line_of(head: &[u8], text: &[u8]) -> ReportLine
    requires head { length head.now ≤ 16 }
    requires text { length text.now ≤ 50 }
    ensures { result.items ≡ head.now ++ (text.now ++ codes "\n") }
{
    let mut line = ReportLine::new();
    put(&mut line, head);
    put(&mut line, text);
    put(&mut line, b"\n");
    line
}

/// The line that reports what makes a file no program.
pub(crate) fn exe_line(error: ExeError) -> ReportLine
    ensures { result.items ≡ exe_line error }
{
    line_of(b"psxk: exe: ", exe_error_text(error).as_slice())
}

// The text of what makes a text no schedule.
#[tactic(auto, unfolding(crate::specs::Reports::schedule_error_text))]
fn schedule_error_text(error: SchedError) -> ReportLine
    ensures items { result.items ≡ schedule_error_text error }
    ensures len { array_vec_len result ≤ 50 }
{
    match error {
        SchedError::TooLong { limit } => with_number(b"TooLong ", limit as u64),
        SchedError::BadLine { line } => with_number(b"BadLine ", line as u64),
        SchedError::OutOfOrder { line } => with_number(b"OutOfOrder ", line as u64),
        SchedError::TooMany => named(b"TooMany"),
        SchedError::Memory => named(b"Memory"),
    }
}

/// The line that reports what makes a text no schedule.
pub(crate) fn schedule_line(error: SchedError) -> ReportLine
    ensures { result.items ≡ schedule_line error }
{
    line_of(b"psxk: schedule: ", schedule_error_text(error).as_slice())
}

// The text of what makes a text no configuration.
#[tactic(auto, unfolding(crate::specs::Reports::config_error_text))]
fn config_error_text(error: ConfError) -> ReportLine
    ensures items { result.items ≡ config_error_text error }
    ensures len { array_vec_len result ≤ 50 }
{
    match error {
        ConfError::TooLong { limit } => with_number(b"TooLong ", limit as u64),
        ConfError::BadLine { line } => with_number(b"BadLine ", line as u64),
        ConfError::Range { line } => with_number(b"Range ", line as u64),
    }
}

/// The line that reports what makes a text no configuration.
pub(crate) fn config_line(error: ConfError) -> ReportLine
    ensures { result.items ≡ config_line error }
{
    line_of(b"psxk: config: ", config_error_text(error).as_slice())
}

// The text of what is wrong with a line, up to its label.
fn fault_head(fault: &AsmFault) -> ReportLine
    ensures items { result.items ≡ fault_head fault.now }
    ensures len { array_vec_len result ≤ 50 }
{
    match fault {
        AsmFault::BadToken => named(b"BadToken"),
        AsmFault::UnknownWord => named(b"UnknownWord"),
        AsmFault::BadOperand => named(b"BadOperand"),
        AsmFault::Twice { .. } => named(b"Twice "),
        AsmFault::NoLabel { .. } => named(b"NoLabel "),
        AsmFault::Range { value } => with_address(b"Range", *value),
        AsmFault::Overlap => named(b"Overlap"),
    }
}

// The text of what makes a text no assembly text, up to its label.
fn error_head(error: &AsmError) -> ReportLine
    ensures items { result.items ≡ error_head error.now }
    ensures len { array_vec_len result ≤ 102 }
{
    match error {
        AsmError::TooLong { limit } => with_number(b"TooLong ", *limit as u64),
        AsmError::Line { line, fault } => {
            let mut text = with_number(b"line ", *line as u64);
            put(&mut text, b": ");
            put(&mut text, fault_head(fault).as_slice());
            text
        }
        AsmError::Memory => named(b"Memory"),
    }
}

/// The front of the line that reports what makes a text no assembly text, up to its label.
pub(crate) fn text_head(error: &AsmError) -> ReportLine
    ensures { result.items ≡ codes "psxk: text: " ++ error_head error.now }
{
    let mut line = named(b"psxk: text: ");
    put(&mut line, error_head(error).as_slice());
    line
}

/// Its label; a fault without one has no bytes there.
pub(crate) fn text_label(error: &AsmError) -> &[u8]
    ensures { result.now ≡ error_label error.now }
{
    match error {
        AsmError::Line { fault, .. } => match fault {
            AsmFault::Twice { label } => label.as_slice(),
            AsmFault::NoLabel { label } => label.as_slice(),
            _ => &[],
        },
        _ => &[],
    }
}

/// The line that reports a stop.
pub(crate) fn stop_line(stop: Stop) -> ReportLine
    ensures { result.items ≡ stop_line stop }
{
    line_of(b"psxk: stopped ", stop_text(stop).as_slice())
}
