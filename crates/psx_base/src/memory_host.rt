//! A host in memory, which tells everything.
ghost use Rattle.psx_base.specs.Calls.{after_of};
ghost use Rattle.psx_base.specs.declared.host.Out.{Out};
ghost use Rattle.std.specs.Prelude.{◌≡◌, ◌≢◌, ◌≤◌, ◌<◌, ◌+◌, ◌-◌, ◌^◌, ℕ, List, [], ◌∷◌, ◌++◌, Option, Some, IfOk, IfErr, OnOk, OnErr, IsErrOf, length, vec_len, vec_capacity, min, option_copied, Contains, ◌↔◌, IsTrue, take};

use crate::files::Files;
use crate::host::{Host, LoadError, Out, SendError};
use crate::stop::Memory;
use std::alloc::{AllocError, Global};

// What was sent, each output in a buffer of a room that was taken at first.
#[derive(Drop)]
struct Outputs {
    room: usize,
    tty: Vec<u8>,
    trace: Vec<u8>,
    ram: Vec<u8>,
    report: Vec<u8>,
    ghost tty_room: { room ≤ vec_capacity tty },
    ghost trace_room: { room ≤ vec_capacity trace },
    ghost ram_room: { room ≤ vec_capacity ram },
    ghost report_room: { room ≤ vec_capacity report },
    ghost tty_fits: { vec_len tty ≤ room },
    ghost trace_fits: { vec_len trace ≤ room },
    ghost ram_fits: { vec_len ram ≤ room },
    ghost report_fits: { vec_len report ≤ room },
}

// Appends to a buffer with room for it.
fn append(buffer: &mut Vec<u8>, bytes: &[u8])
    requires { vec_len buffer.old + length bytes.now ≤ vec_capacity buffer.old }
    ensures items { buffer.new.items ≡ buffer.old.items ++ bytes.now }
    ensures len { vec_len buffer.new ≡ vec_len buffer.old + length bytes.now }
    ensures capacity { vec_capacity buffer.old ≤ vec_capacity buffer.new }
{
    if buffer.extend_from_slice(bytes).is_err() {
        unreachable!();
    }
}

impl Outputs {
    ghost use Rattle.psx_base.specs.Outputs.{bytes_on};

    // Empty outputs, each with room for so many bytes.
    fn new(alloc: Global, room: usize) -> Result<Outputs, AllocError>
        ensures { IfOk result (λ o. (o.room ≡ room) × ((out : _) → bytes_on o out ≡ [])) }
    {
        Ok(Outputs {
            room,
            tty: Vec::with_capacity(alloc, room)?,
            trace: Vec::with_capacity(alloc, room)?,
            ram: Vec::with_capacity(alloc, room)?,
            report: Vec::with_capacity(alloc, room)?,
        })
    }

    // What was sent on an output.
    fn on(&self, out: Out) -> &[u8]
        ensures value { result.now ≡ bytes_on self.now out }
        ensures fits { length result.now ≤ self.now.room }
    {
        match out {
            Out::Tty => &self.tty,
            Out::Trace => &self.trace,
            Out::Ram => &self.ram,
            Out::Report => &self.report,
        }
    }

    // Appends bytes that fit the room that an output has left.
    fn add(&mut self, out: Out, bytes: &[u8])
        requires { length (bytes_on self.old out) + length bytes.now ≤ self.old.room }
        ensures room { self.new.room ≡ self.old.room }
        ensures added { bytes_on self.new out ≡ bytes_on self.old out ++ bytes.now }
        ensures others { (o : Out) → o ≢ out → bytes_on self.new o ≡ bytes_on self.old o }
    {
        match out {
            Out::Tty => append(&mut self.tty, bytes),
            Out::Trace => append(&mut self.trace, bytes),
            Out::Ram => append(&mut self.ram, bytes),
            Out::Report => append(&mut self.report, bytes),
        }
    }
}

/// A host in memory, which tells everything. Loads and sends are numbered apart, each from 1.
/// A load fails where its number was set or its name isn't held, a send where its number was set or the room of its output is too small.
#[derive(Drop)]
pub struct MemoryHost {
    files: Files,
    outputs: Outputs,
    loads: u64,
    sends: u64,
    bad_loads: Vec<u64>,
    bad_sends: Vec<(u64, usize)>,
    load_faults: u64,
    send_faults: u64,
}

// The first bytes, one more than the limit, or all where there are fewer.
pub(crate) fn front(bytes: &[u8], limit: usize) -> &[u8]
    ensures { result.now ≡ take (limit + 1) bytes.now }
{
    if bytes.len() <= limit {
        bytes
    } else {
        &bytes[..limit + 1]
    }
}

pub(crate) fn copied(alloc: Global, bytes: &[u8]) -> Result<Vec<u8>, LoadError>
    ensures bytes { IfOk result (λ v. v.items ≡ bytes.now) }
    ensures memory { IfErr result (λ e. e ≡ LoadError.Memory) }
{
    Vec::from_slice(alloc, bytes).map_err(|_| LoadError::Memory)
}

// Whether a load of this number was set to fail.
fn is_set(calls: &[u64], call: u64) -> bool
    ensures { IsTrue result ↔ Contains calls.now call }
{
    calls.contains(&call)
}

// After how many bytes the send of this number was set to fail, the first setting of it.
fn set_after(calls: &[(u64, usize)], call: u64) -> Option<usize>
    ensures { result ≡ after_of calls.now call }
{
    for (number, after) in calls {
        if *number == call {
            return Some(*after);
        }
    }
    None
}

impl MemoryHost {
    ghost use Rattle.psx_base.specs.Outputs.{bytes_on};
    ghost use Rattle.psx_base.specs.Files.{SetsFile, KeepsFiles};
    ghost use Rattle.psx_base.specs.MemoryHost.{held, sent_on, load_faults_of, send_faults_of, set_loads, set_sends, IsQuiet, fails_load, fails_send, KeepsRest, SetsLoads, SetsSends};
    ghost use Rattle.psx_base.specs.Calls.{next_call};

    /// A host with no files and no faults, with room for so many bytes on each output. An Err is want of memory for that room.
    pub fn new(alloc: Global, room: usize) -> Result<MemoryHost, Memory>
        ensures { IfOk result (λ h. IsQuiet h room) }
    {
        let outputs = Outputs::new(alloc, room).map_err(|_| Memory)?;
        Ok(MemoryHost {
            files: Files::new(alloc),
            outputs,
            loads: 0,
            sends: 0,
            bad_loads: Vec::new(alloc),
            bad_sends: Vec::new(alloc),
            load_faults: 0,
            send_faults: 0,
        })
    }

    /// Sets a file, in place of what the name had. An Err leaves all files as they were.
    pub fn put(&mut self, name: &str, bytes: &[u8]) -> Result<(), Memory>
        ensures ok { OnOk result (SetsFile (held self.old) (held self.new) name.now bytes.now) }
        ensures err { OnErr result (KeepsFiles (held self.old) (held self.new)) }
        ensures rest { KeepsRest self.old self.new }
    {
        self.files.put(name, bytes)
    }

    /// Makes the load of this number fail. Loads are numbered from 1.
    pub fn fail_load(&mut self, call: u64) -> Result<(), Memory>
        ensures ok { OnOk result (SetsLoads self.old self.new (set_loads self.old ++ call ∷ [])) }
        ensures err { OnErr result (SetsLoads self.old self.new (set_loads self.old)) }
    {
        self.bad_loads.push(call).map_err(|_| Memory)
    }

    /// Makes the send of this number fail after so many bytes, or fewer where not so many fit. Sends are numbered from 1, apart from loads.
    /// Of two settings of one number the first holds.
    pub fn fail_send(&mut self, call: u64, after: usize) -> Result<(), Memory>
        ensures ok { OnOk result (SetsSends self.old self.new (set_sends self.old ++ (call, after) ∷ [])) }
        ensures err { OnErr result (SetsSends self.old self.new (set_sends self.old)) }
    {
        self.bad_sends.push((call, after)).map_err(|_| Memory)
    }

    /// What was sent on an output.
    pub fn sent(&self, out: Out) -> &[u8]
        ensures { result.now ≡ sent_on self.now out }
    {
        self.outputs.on(out)
    }

    /// How many loads failed, 2^64 - 1 at most.
    pub fn load_faults(&self) -> u64
        ensures { result ≡ load_faults_of self.now }
    {
        self.load_faults
    }

    /// How many sends failed, 2^64 - 1 at most.
    pub fn send_faults(&self) -> u64
        ensures { result ≡ send_faults_of self.now }
    {
        self.send_faults
    }

    // Counts a load, and tells whether it was set to fail.
    fn next_load(&mut self) -> bool
        ensures set { IsTrue result ↔ fails_load self.old (next_call self.old.loads) }
        ensures counted { self.new ≡ record self.old { loads = next_call self.old.loads } }
    {
        self.loads = self.loads.saturating_add(1);
        is_set(&self.bad_loads, self.loads)
    }

    // Counts a send, and tells after how many bytes it was set to fail.
    fn next_send(&mut self) -> Option<usize>
        ensures set { result ≡ fails_send self.old (next_call self.old.sends) }
        ensures counted { self.new ≡ record self.old { sends = next_call self.old.sends } }
    {
        self.sends = self.sends.saturating_add(1);
        set_after(&self.bad_sends, self.sends)
    }
}

impl Host for MemoryHost {
    ghost use Rattle.psx_base.specs.MemoryHost.{held, sent_on, load_faults_of, send_faults_of, FailsLoad, CountsLoad, FailsSend, send_length, CountsSend};
    ghost use Rattle.psx_base.specs.Calls.{next_call};
    ghost use Rattle.psx_base.specs.Host.{Rose, IsFront, Sends};

    ghost holds = { held };

    ghost sent = { λ h out. Some (sent_on h out) };

    ghost load_faults = { λ h _. load_faults_of h };

    ghost send_faults = { send_faults_of };

    fn load(&mut self, alloc: Global, name: &str, limit: usize) -> Result<Vec<u8>, LoadError>
        // It fails exactly where its number was set or its name isn't held.
        ensures exactly { IsErrOf result LoadError.Failed ↔ FailsLoad self.old name.now }
        ensures only_counts { CountsLoad self.old self.new }
        ensures counted { IsErrOf result LoadError.Failed → load_faults_of self.new ≡ next_call (load_faults_of self.old) }
        ensures uncounted { IfOk result (λ _. load_faults_of self.new ≡ load_faults_of self.old) }
        ensures memory { IsErrOf result LoadError.Memory → load_faults_of self.new ≡ load_faults_of self.old }

        // What the trait says.
        ensures room { IfOk result (λ v. length v.items ≤ limit + 1) }
        ensures bytes { IfOk result (λ v. IsFront (limit + 1) (held self.old name.now) v.items) }
        ensures failed { IsErrOf result LoadError.Failed → Rose (load_faults_of self.old) (load_faults_of self.new) }
        ensures load_faults { (n : List ℕ) → load_faults_of self.old ≤ load_faults_of self.new }
        ensures send_faults { send_faults_of self.old ≤ send_faults_of self.new }
        ensures holds { (n : List ℕ) → held self.new n ≡ held self.old n }
        ensures sent { (o : Out) → Some (sent_on self.new o) ≡ Some (sent_on self.old o) }
    {
        if !self.next_load() {
            if let Some(bytes) = self.files.find(name) {
                return copied(alloc, front(bytes, limit));
            }
        }
        self.load_faults = self.load_faults.saturating_add(1);
        Err(LoadError::Failed)
    }

    fn send(&mut self, out: Out, bytes: &[u8]) -> Result<(), SendError>
        // It fails exactly where its number was set or its bytes don't fit, and appends as many as were set and as fit.
        ensures exactly { IsErrOf result SendError.Failed ↔ FailsSend self.old out bytes.now }
        ensures appended { sent_on self.new out ≡ sent_on self.old out ++ take (send_length self.old out bytes.now) bytes.now }
        ensures only_counts { CountsSend self.old self.new }
        ensures counted { IsErrOf result SendError.Failed → send_faults_of self.new ≡ next_call (send_faults_of self.old) }
        ensures uncounted { OnOk result (send_faults_of self.new ≡ send_faults_of self.old) }

        // What the trait says.
        ensures sent { Sends (λ o. Some (sent_on self.old o)) (λ o. Some (sent_on self.new o)) out bytes.now result }
        ensures failed { IsErrOf result SendError.Failed → Rose (send_faults_of self.old) (send_faults_of self.new) }
        ensures load_faults { (n : List ℕ) → load_faults_of self.old ≤ load_faults_of self.new }
        ensures send_faults { send_faults_of self.old ≤ send_faults_of self.new }
        ensures holds { (n : List ℕ) → held self.new n ≡ held self.old n }
    {
        let set = self.next_send();
        let left = self.outputs.room - self.outputs.on(out).len();
        let fits = bytes.len().min(left);
        let count = fits.min(set.unwrap_or(fits));
        self.outputs.add(out, &bytes[..count]);
        if set.is_none() && bytes.len() <= left {
            Ok(())
        } else {
            self.send_faults = self.send_faults.saturating_add(1);
            Err(SendError::Failed)
        }
    }
}
