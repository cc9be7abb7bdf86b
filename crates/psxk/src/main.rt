//! The program `psxk`: the top call over real files.
//! Its answers are proved in the crate of the top call; here are the words of the command line and the host over files.
#![tactic(auto)]

mod file_host;
#[cfg(test)]
mod file_host_tests;

use file_host::FileHost;
use psx_base::{Host, Out};
use psxk_run::psxk;
use std::alloc::AllocError;
use std::process::ExitCode;
use std::{env, io};

fn main(rt: HostRuntime) -> ExitCode {
    ExitCode::from(match run(&rt) {
        Ok(status) => status,
        Err(error) => refused(&rt, error),
    })
}

// Makes the call that the words behind the program's name ask for.
fn run(rt: &HostRuntime) -> io::Result<u8> {
    let alloc = rt.alloc();
    let owned: Vec<String> = env::args(rt)?.skip(1).collect(alloc)?;
    let mut words = Vec::new(alloc);
    for word in owned.iter() {
        words.push(word.as_str()).map_err(AllocError::from)?;
    }
    Ok(psxk(alloc, &words, &mut FileHost::new(rt)))
}

// The status where the words weren't taken: for want of memory, or one isn't UTF-8 and so is in no command's form.
fn refused(rt: &HostRuntime, error: io::Error) -> u8 {
    let mut host = FileHost::new(rt);
    if !matches!(error.kind(), io::ErrorKind::OutOfMemory) {
        return psxk(rt.alloc(), &[], &mut host);
    }
    match host.send(Out::Report, b"psxk: memory\n") {
        Ok(()) => 7,
        Err(_) => 6,
    }
}
