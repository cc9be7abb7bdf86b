//! The program `psx_calls`: it reads a trace on standard input and writes it as the lines of its stays, as one reads a trace of system calls.
//! `shown` is the definition `Shows`: which lines each item gives, or which fault the trace has. A fault is reported with its line, by the definitions `status_of` and `report`.
//! Here are the words of the command line and the edge over standard input and output.
#![tactic(auto)]

mod entries;
mod lines;
mod numbers;
mod places;
mod reading;
mod refusal;
mod shown;
#[cfg(test)]
mod tests;

use reading::{numbers_asked, read_text};
use refusal::{Refusal, report, status_of};
use shown::{Fault, LIMIT, shown};
use std::io::Write;
use std::process::ExitCode;
use std::{env, io};

fn main(rt: HostRuntime) -> ExitCode {
    let sent = match shown_text(&rt) {
        Ok(lines) => write_all(&rt, &lines, 0),
        Err(refusal) => write_all(&rt, report(refusal).as_slice(), status_of(refusal)),
    };
    ExitCode::from(sent)
}

// The lines of the trace on standard input, as the words ask.
fn shown_text(rt: &HostRuntime) -> Result<Vec<u8>, Refusal> {
    let alloc = rt.alloc();
    let owned = words(rt)?;
    let mut words = Vec::new(alloc);
    for word in owned.iter() {
        words
            .push(word.as_str())
            .map_err(|_| Refusal::Trace(Fault::Memory))?;
    }
    let Some(numbers) = numbers_asked(&words) else {
        return Err(Refusal::Usage);
    };
    let text = read_text(alloc, &mut rt.stdin(), LIMIT)?;
    shown(alloc, numbers, &text).map_err(Refusal::Trace)
}

// The words behind the program's name. A word that isn't UTF-8 is in no form.
fn words(rt: &HostRuntime) -> Result<Vec<String>, Refusal> {
    match arguments(rt) {
        Ok(words) => Ok(words),
        Err(error) if matches!(error.kind(), io::ErrorKind::OutOfMemory) => {
            Err(Refusal::Trace(Fault::Memory))
        }
        Err(_) => Err(Refusal::Usage),
    }
}

fn arguments(rt: &HostRuntime) -> io::Result<Vec<String>> {
    let words = env::args(rt)?.skip(1).collect(rt.alloc())?;
    Ok(words)
}

// Writes bytes, and answers a status, or 6 where they can't be written.
fn write_all(rt: &HostRuntime, bytes: &[u8], status: u8) -> u8 {
    match io::writer(rt).write_all(bytes) {
        Ok(()) => status,
        Err(_) => 6,
    }
}
