//! The host over real files: the edge that is trusted for what the system does.
ghost use Rattle.std.specs.Prelude.{◌≡◌, ◌≢◌, ◌≤◌, ◌+◌, ℕ, List, IfOk, OnOk, OnErr, IsNone, IsSome, length, IsErrOf};
ghost use Rattle.std.specs.Io.KnownBytes.{Appends};
ghost use Rattle.psx_base.specs.declared.host.Out.{Out};
ghost use Rattle.psx_base.specs.Host.{Rose, IsFront, Sends};
ghost use Rattle.psxk.specs.FileHost.{after_load, after_send, AppendsFront, HasFile, untold};

use psx_base::{Host, LoadError, Out, SendError};
use std::alloc::Global;
use std::io::{Read, Write};
use std::rt::Files;
use std::{fs, io};

/// A host that loads real files, relative to the folder in which the program was started.
///
/// Tty and Report are standard output, Trace is the file `psxk.trace` and Ram the file `psxk.bin`, each made anew at its first send.
/// It tells nothing of content, and counts the faults of loads, alike for each name, and those of sends.
#[derive(Drop)]
pub struct FileHost<'a, R: Files + Print> {
    rt: &'a R,
    trace: Option<R::File>,
    ram: Option<R::File>,
    load_faults: u64,
    send_faults: u64,
}

impl<'a, R: Files + Print> FileHost<'a, R> {
    /// A host that has made no file and counted no fault.
    pub fn new(rt: &'a R) -> Self
        ensures loads { result.load_faults ≡ 0 }
        ensures sends { result.send_faults ≡ 0 }
        ensures trace { IsNone result.trace }
        ensures ram { IsNone result.ram }
    {
        FileHost {
            rt,
            trace: None,
            ram: None,
            load_faults: 0,
            send_faults: 0,
        }
    }

    // Sends without a count. A file that could not be made is tried again at the next send.
    fn send_now(&mut self, out: Out, bytes: &[u8]) -> io::Result<()>
        ensures loads { self.new.load_faults ≡ self.old.load_faults }
        ensures sends { self.new.send_faults ≡ self.old.send_faults }
        ensures own_file { OnOk result (HasFile self.new.trace self.new.ram out) }
        ensures trace { out ≢ Out.Trace → self.new.trace ≡ self.old.trace }
        ensures ram { out ≢ Out.Ram → self.new.ram ≡ self.old.ram }
    {
        match out {
            Out::Tty | Out::Report => write_to(&mut io::writer(self.rt), bytes),
            Out::Trace => write_file(self.rt, &mut self.trace, "psxk.trace", bytes),
            Out::Ram => write_file(self.rt, &mut self.ram, "psxk.bin", bytes),
        }
    }
}

// Writes all of the bytes, in as many writes as it takes. A write of 0 bytes is a fault, as any error is.
fn write_to<W: Write>(writer: &mut W, bytes: &[u8]) -> io::Result<()>
    ensures all { OnOk result (Appends (W.contents writer.old) (W.contents writer.new) bytes.now) }
    ensures front { OnErr result (AppendsFront (W.contents writer.old) (W.contents writer.new) bytes.now) }
{
    let mut left = bytes;
    while !left.is_empty() {
        match writer.write(left) {
            Ok(0) => return Err(io::Error::from(io::ErrorKind::WriteZero)),
            Ok(count) => left = &left[count..],
            Err(error) => return Err(error),
        }
    }
    Ok(())
}

// Writes to a file, which is made anew where it isn't open yet, and stays open.
fn write_file<R: Files>(
    rt: &R,
    file: &mut Option<R::File>,
    name: &str,
    bytes: &[u8],
) -> io::Result<()>
    ensures open { OnOk result (IsSome file.new) }
    ensures stays { IsSome file.old → IsSome file.new }
{
    if let Some(file) = file {
        return write_to(file, bytes);
    }
    let mut made = fs::create(rt, name)?;
    let written = write_to(&mut made, bytes);
    *file = Some(made);
    written
}

// Reads one byte more than the limit at most, or to the end.
fn read_from<T: Read>(alloc: Global, reader: &mut T, limit: usize) -> Result<Vec<u8>, LoadError>
    ensures room { IfOk result (λ v. length v.items ≤ limit + 1) }
    ensures bytes { IfOk result (λ v. IsFront (limit + 1) (T.remaining reader.old) v.items) }
{
    let mut bytes = Vec::new(alloc);
    let mut buffer = [0u8; 4096];
    for _ in 0..u64::MAX {
        if bytes.len() > limit {
            return Ok(bytes);
        }
        let room = (limit - bytes.len()).saturating_add(1).min(4096);
        let part = &mut buffer[..room];
        match reader.read(part) {
            Ok(0) => return Ok(bytes),
            Ok(count) => {
                if bytes.extend_from_slice(&part[..count]).is_err() {
                    return Err(LoadError::Memory);
                }
            }
            Err(_) => return Err(LoadError::Failed),
        }
    }
    Err(LoadError::Failed)
}

fn load_file<R: Files>(
    rt: &R,
    alloc: Global,
    name: &str,
    limit: usize,
) -> Result<Vec<u8>, LoadError>
    ensures { IfOk result (λ v. length v.items ≤ limit + 1) }
{
    match fs::open(rt, name) {
        Ok(mut file) => read_from(alloc, &mut file, limit),
        Err(_) => Err(LoadError::Failed),
    }
}

impl<'a, R: Files + Print> Host for FileHost<'a, R> {
    ghost holds = { λ _ _. untold };

    ghost sent = { λ _ _. untold };

    ghost load_faults = { λ h _. h.load_faults };

    ghost send_faults = { λ h. h.send_faults };

    fn load(&mut self, alloc: Global, name: &str, limit: usize) -> Result<Vec<u8>, LoadError>
        // It counts a load that fails, once, and changes nothing else.
        ensures only_counts { self.new ≡ record self.old { load_faults = after_load result self.old.load_faults } }

        // What the trait says.
        ensures room { IfOk result (λ v. length v.items ≤ limit + 1) }
        ensures bytes { IfOk result (λ v. IsFront (limit + 1) untold v.items) }
        ensures failed { IsErrOf result LoadError.Failed → Rose self.old.load_faults self.new.load_faults }
        ensures load_faults { (n : List ℕ) → self.old.load_faults ≤ self.new.load_faults }
        ensures send_faults { self.old.send_faults ≤ self.new.send_faults }
        ensures holds { (n : List ℕ) → untold ≡ untold }
        ensures sent { (o : Out) → untold ≡ untold }
    {
        let loaded = load_file(self.rt, alloc, name, limit);
        if let Err(LoadError::Failed) = &loaded {
            self.load_faults = self.load_faults.saturating_add(1);
        }
        loaded
    }

    fn send(&mut self, out: Out, bytes: &[u8]) -> Result<(), SendError>
        // It counts a send that fails, once.
        ensures counts { self.new.send_faults ≡ after_send result self.old.send_faults }
        ensures no_load { self.new.load_faults ≡ self.old.load_faults }

        // Each output goes where it belongs.
        ensures own_file { OnOk result (HasFile self.new.trace self.new.ram out) }
        ensures trace { out ≢ Out.Trace → self.new.trace ≡ self.old.trace }
        ensures ram { out ≢ Out.Ram → self.new.ram ≡ self.old.ram }

        // What the trait says.
        ensures sent { Sends (λ _. untold) (λ _. untold) out bytes.now result }
        ensures failed { IsErrOf result SendError.Failed → Rose self.old.send_faults self.new.send_faults }
        ensures load_faults { (n : List ℕ) → self.old.load_faults ≤ self.new.load_faults }
        ensures send_faults { self.old.send_faults ≤ self.new.send_faults }
        ensures holds { (n : List ℕ) → untold ≡ untold }
    {
        match self.send_now(out, bytes) {
            Ok(()) => Ok(()),
            Err(_) => {
                self.send_faults = self.send_faults.saturating_add(1);
                Err(SendError::Failed)
            }
        }
    }
}
