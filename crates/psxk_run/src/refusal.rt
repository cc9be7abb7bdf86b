//! Why a command does nothing, and how it tells.
ghost use Rattle.std.specs.Prelude.{◌≡◌, ℕ, List, ◌++◌, codes, OnOk, OnErr};
ghost use Rattle.psx_base.specs.Host.{Rose};
ghost use Rattle.psx_base.specs.declared.host.Out.{Out};
ghost use Rattle.psxk_run.specs.Refusals.{line_of, status_of};
ghost use Rattle.psxk_run.specs.Reports.{memory_line, read_line, text_line};
ghost use Rattle.psxk_run.specs.Sent.{Grew, GrewFront, GoesOn, OnlyReports, Says};

use crate::configuration::ConfError;
use crate::report::{config_line, exe_line, schedule_line, text_head, text_label};
use psx_asm::AsmError;
use psx_base::{Host, Out, SendError};
use psx_exe::ExeError;
use psx_sched::SchedError;

/// Why a command isn't carried out.
#[derive(Drop, Debug)]
pub enum Refusal<'a> {
    /// The program has a fault.
    Program(ExeError),
    /// The schedule has a fault.
    Schedule(SchedError),
    /// The configuration has a fault.
    Config(ConfError),
    /// The assembly text has a fault.
    Text(AsmError),
    /// The file of this name wasn't read.
    Unread(&'a str),
    /// Want of memory.
    Memory,
}

const MEMORY: &[u8] = b"psxk: memory\n";

// Reports a text, and answers the status, or 6 where the sending failed.
pub(crate) fn say<H: Host>(host: &mut H, text: &[u8], status: u8) -> u8
    ensures says { Says (H.sent host.old) (H.sent host.new) (H.send_faults host.old) (H.send_faults host.new) text.now status result }
    ensures front { GrewFront (H.sent host.old Out.Report) (H.sent host.new Out.Report) text.now }
    ensures only { OnlyReports (H.sent host.old) (H.sent host.new) }
    ensures on { GoesOn H.holds H.load_faults H.send_faults host.old host.new }
{
    match host.send(Out::Report, text) {
        Ok(()) => status,
        Err(_) => 6,
    }
}

// Sends a line in two parts and its line feed.
fn send_line<H: Host>(host: &mut H, head: &[u8], rest: &[u8]) -> Result<(), SendError>
    ensures all { OnOk result (Grew (H.sent host.old Out.Report) (H.sent host.new Out.Report) (head.now ++ (rest.now ++ codes "\n"))) }
    ensures front { GrewFront (H.sent host.old Out.Report) (H.sent host.new Out.Report) (head.now ++ (rest.now ++ codes "\n")) }
    ensures failed { OnErr result (Rose (H.send_faults host.old) (H.send_faults host.new)) }
    ensures only { OnlyReports (H.sent host.old) (H.sent host.new) }
    ensures on { GoesOn H.holds H.load_faults H.send_faults host.old host.new }
{
    host.send(Out::Report, head)?;
    host.send(Out::Report, rest)?;
    host.send(Out::Report, b"\n")?;
    Ok(())
}

// Reports a line in two parts, and answers the status, or 6 where the sending failed.
fn say_line<H: Host>(host: &mut H, head: &[u8], rest: &[u8], status: u8) -> u8
    ensures says { Says (H.sent host.old) (H.sent host.new) (H.send_faults host.old) (H.send_faults host.new) (head.now ++ (rest.now ++ codes "\n")) status result }
    ensures front { GrewFront (H.sent host.old Out.Report) (H.sent host.new Out.Report) (head.now ++ (rest.now ++ codes "\n")) }
    ensures only { OnlyReports (H.sent host.old) (H.sent host.new) }
    ensures on { GoesOn H.holds H.load_faults H.send_faults host.old host.new }
{
    match send_line(host, head, rest) {
        Ok(()) => status,
        Err(_) => 6,
    }
}

// Reports that a file was not read.
fn say_read<H: Host>(host: &mut H, name: &str) -> u8
    ensures says { Says (H.sent host.old) (H.sent host.new) (H.send_faults host.old) (H.send_faults host.new) (read_line name.now) 5 result }
    ensures front { GrewFront (H.sent host.old Out.Report) (H.sent host.new Out.Report) (read_line name.now) }
    ensures only { OnlyReports (H.sent host.old) (H.sent host.new) }
    ensures on { GoesOn H.holds H.load_faults H.send_faults host.old host.new }
{
    say_line(host, b"psxk: read ", name.as_bytes(), 5)
}

// Reports the fault of an assembly text.
fn say_text<H: Host>(host: &mut H, error: &AsmError) -> u8
    ensures says { Says (H.sent host.old) (H.sent host.new) (H.send_faults host.old) (H.send_faults host.new) (text_line error.now) 8 result }
    ensures front { GrewFront (H.sent host.old Out.Report) (H.sent host.new Out.Report) (text_line error.now) }
    ensures only { OnlyReports (H.sent host.old) (H.sent host.new) }
    ensures on { GoesOn H.holds H.load_faults H.send_faults host.old host.new }
{
    say_line(host, text_head(error).as_slice(), text_label(error), 8)
}

// Reports want of memory.
pub(crate) fn say_memory<H: Host>(host: &mut H) -> u8
    ensures says { Says (H.sent host.old) (H.sent host.new) (H.send_faults host.old) (H.send_faults host.new) memory_line 7 result }
    ensures front { GrewFront (H.sent host.old Out.Report) (H.sent host.new Out.Report) memory_line }
    ensures only { OnlyReports (H.sent host.old) (H.sent host.new) }
    ensures on { GoesOn H.holds H.load_faults H.send_faults host.old host.new }
{
    say(host, MEMORY, 7)
}

// Reports a refusal, and answers its status, or 6 where the sending failed.
pub(crate) fn refuse<H: Host>(host: &mut H, refusal: Refusal) -> u8
    ensures says { Says (H.sent host.old) (H.sent host.new) (H.send_faults host.old) (H.send_faults host.new) (line_of refusal.entry) (status_of refusal.entry) result }
    ensures front { GrewFront (H.sent host.old Out.Report) (H.sent host.new Out.Report) (line_of refusal.entry) }
    ensures only { OnlyReports (H.sent host.old) (H.sent host.new) }
    ensures on { GoesOn H.holds H.load_faults H.send_faults host.old host.new }
{
    match refusal {
        Refusal::Program(fault) => say(host, exe_line(fault).as_slice(), 3),
        Refusal::Schedule(fault) => say(host, schedule_line(fault).as_slice(), 4),
        Refusal::Config(fault) => say(host, config_line(fault).as_slice(), 9),
        Refusal::Text(fault) => say_text(host, &fault),
        Refusal::Unread(name) => say_read(host, name),
        Refusal::Memory => say_memory(host),
    }
}
