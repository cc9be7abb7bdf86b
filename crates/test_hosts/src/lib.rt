//! Programs and hosts in memory, and runs of assembled texts over them by the top call, for the crates of tests above it. What a run is to show, these crates compare.
#![tactic(auto)]

ghost use Rattle.std.specs.Prelude.{◌≡◌, ◌<◌, ◌≤◌, ◌+◌, ◌*◌, ◌-◌, ◌↔◌, ◌⊎◌, [], ◌∷◌, ◌++◌, None, Some, IsTrue, IfOk, length, drop, codes, nat_eq};
ghost use Rattle.std.specs.List.{starts_with};
ghost use Rattle.psx_base.specs.Files.{SetsFile};
ghost use Rattle.psx_base.specs.MemoryHost.{held, sent_on};
ghost use Rattle.psx_base.specs.declared.host.Out.{Out};
ghost use Rattle.psxk_run.specs.Top.{IsStatus};

use psx_base::{Memory, MemoryHost, Out};
use psxk_run::psxk;
use std::alloc::{AllocError, Global};

/// Room for the memory and the texts of a short run.
pub const ROOM: usize = 2_200_000;

/// The file of a program whose text and pc stand at 80010000h, with the words as its text. The size in its header wraps at 2^32.
pub fn program(alloc: Global, words: &[u32]) -> Result<Vec<u8>, AllocError>
    ensures size { IfOk result (λ file. length file.items ≡ 0x800 + 4 * length words.now) }
{
    let mut file = vec![in alloc; 0u8; 0x800]?;
    file[..8].copy_from_slice(b"PS-X EXE");
    file[0x10..0x14].copy_from_slice(&[0, 0, 1, 0x80]);
    file[0x18..0x1C].copy_from_slice(&[0, 0, 1, 0x80]);
    let size = words.len().wrapping_mul(4);
    file[0x1C..0x20].copy_from_slice(&size.to_le_bytes()[..4]);
    for word in words {
        file.extend_from_slice(&word.to_le_bytes())?;
    }
    Ok(file)
}

/// A host that holds one file.
pub fn host_with(alloc: Global, name: &str, file: &[u8]) -> Result<MemoryHost, Memory>
    ensures holds { IfOk result (λ host. SetsFile (λ _. None) (held host) name.now file.now) }
    ensures sent { IfOk result (λ host. (out : Out) → sent_on host out ≡ []) }
{
    let mut host = MemoryHost::new(alloc, ROOM)?;
    host.put(name, file)?;
    Ok(host)
}

/// A host that holds the program `a.exe`.
pub fn host_of(alloc: Global, file: &[u8]) -> Result<MemoryHost, Memory>
    ensures holds { IfOk result (λ host. SetsFile (λ _. None) (held host) (codes "a.exe") file.now) }
    ensures sent { IfOk result (λ host. (out : Out) → sent_on host out ≡ []) }
{
    host_with(alloc, "a.exe", file)
}

/// The words that run it.
pub const RUN: [&str; 4] = ["run", "a.exe", "-", "2000000"];

/// The words that run it with the schedule `s`.
pub const RUN_WITH: [&str; 4] = ["run", "a.exe", "s", "2000000"];

/// `A3C(41h)`, then `A06(0)`.
pub const HELLO: [u32; 9] = [
    0x2404_0041,
    0x2409_003C,
    0x240A_00A0,
    0x0140_F809,
    0,
    0x2404_0000,
    0x2409_0006,
    0x0140_0008,
    0,
];

/// The trace of its run.
pub const HELLO_TRACE: &[u8] = b"B 38941
E 38946 00000020 000000A0 A 0000003C
X 39072 80010014 00000401 00000000 00000000 00000000 00000041 00000000 00000041 00000000 00000000 00000000 00000000 0000003C 000000A0 00000000 00000000 00000000 00000000 00000000 00000000 00000000 00000000 00000000 00000000 00000000 00000000 00000000 00000000 00000000 80010014 00000000 00000000 801FFF00 801FFF00 80010014
E 39076 00000020 000000A0 A 00000006
S 39153 Exit 00000000
";

/// Whether bytes stand somewhere in others.
pub fn stands_in(bytes: &[u8], part: &[u8]) -> bool
    requires { 0 < length part.now }
{
    bytes.windows(part.len()).any(|window| window == part)
}

/// A text's run: the status of the assembler, that of the run of what it made, and the host behind this run.
#[derive(Drop)]
pub struct TextRun {
    /// The status of the command `asm`.
    pub assembled: u8,
    /// The status of the command `run`.
    pub status: u8,
    /// The host behind the run.
    pub host: MemoryHost,
}

impl TextRun {
    /// Assembles a text and runs what comes of it with a schedule. An Err is want of memory for the hosts.
    pub fn new(alloc: Global, text: &[u8], schedule: &[u8]) -> Result<TextRun, Memory>
        ensures assembled { IfOk result (λ run. IsStatus run.assembled) }
        ensures status { IfOk result (λ run. IsStatus run.status) }
        ensures schedule { IfOk result (λ run. held run.host (codes "s") ≡ Some schedule.now) }
    {
        let mut maker = host_with(alloc, "a.s", text)?;
        let assembled = psxk(alloc, &["asm", "a.s"], &mut maker);
        let mut host = host_of(alloc, maker.sent(Out::Ram))?;
        host.put("s", schedule)?;
        let status = psxk(alloc, &RUN_WITH, &mut host);
        Ok(TextRun {
            assembled,
            status,
            host,
        })
    }

    /// Both statuses, and the last bytes of the trace: so many, or all where there are fewer.
    pub fn end(&self, count: usize) -> (u8, u8, &[u8])
        ensures assembled { result.0 ≡ self.now.assembled }
        ensures status { result.1 ≡ self.now.status }
        ensures trace { let trace = sent_on self.now.host Out.Trace in result.2.now ≡ drop (length trace - count) trace }
    {
        let trace = self.host.sent(Out::Trace);
        let from = trace.len().saturating_sub(count);
        (self.assembled, self.status, &trace[from..])
    }
}

/// The status of a run whose trace ends with this stop: 0 for Exit and Budget, 1 for each other one.
pub fn status_of(stop: &[u8]) -> u8
    ensures well { (result ≡ 0) ↔ (IsTrue (starts_with nat_eq stop.now (codes " Exit ")) ⊎ (stop.now ≡ codes " Budget" ++ 10 ∷ [])) }
    ensures bound { result ≤ 1 }
{
    let ends_well = stop.starts_with(b" Exit ") || stop == b" Budget\n".as_slice();
    if ends_well { 0 } else { 1 }
}
