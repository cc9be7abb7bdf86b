//! The files that a run names, and what they give.
ghost use Rattle.std.specs.Prelude.{◌≡◌, ◌≢◌, ◌⊎◌, ◌≤◌, ◌<◌, ◌+◌, ◌^◌, All, ℕ, List, Option, Ok, Err, IfOk, IfErr, IsTrue, ◌↔◌};
ghost use Rattle.psx_base.specs.Host.{Rose, IsFront};
ghost use Rattle.psx_base.specs.declared.host.Out.{Out};
ghost use Rattle.psx_exe.specs.Reading.{IsReadable};
ghost use Rattle.abs_run.specs.Accepted.{IsAccepted, AreBytes};
ghost use Rattle.psxk_run.specs.Inputs.{IsLoaded, GivesProgram, GivesSchedule, GivesSizes, GivesAll, IsCause, IsRunnable, IsUnreadOf, OfProgram, OfSchedule, OfSizes, GivesPlaced, OfText, workload_inputs};
ghost use Rattle.psxk_run.specs.Sent.{GoesOn};
ghost use Rattle.psxk_run.specs.Told.{told_run, word_of};
ghost use Rattle.psxk_run.specs.Assembling.{AreInWindow};
ghost use Rattle.psx_asm.specs.Placing.{bytes_of_parts};
ghost use Rattle.psx_asm.specs.Assembly.{placed_by};

use crate::assembling::{FROM, TO};
use crate::command::Run;
use crate::configuration::config;
use crate::refusal::Refusal;
use psx_asm::{AsmError, Object, assemble};
use psx_base::{Host, LoadError, Memory, Sizes};
use psx_exe::{Exe, ExeError};
use psx_gen::workload;
use psx_sched::{SchedError, Schedule};
use std::alloc::Global;

/// The most bytes that a program's file may have.
const EXE_LIMIT: usize = 8_388_608;

/// The most bytes that a schedule or a configuration may have.
const TEXT_LIMIT: usize = 4_194_304;

/// The sizes of the kernel's tables where the words give none.
const PLAIN_SIZES: Sizes = Sizes {
    threads: 4,
    events: 16,
};

/// What a run is made from.
#[derive(Drop)]
pub struct Inputs {
    pub exe: Exe,
    pub schedule: Schedule,
    pub sizes: Sizes,
}

// Loads a file.
fn load<'a, H: Host>(
    alloc: Global,
    host: &mut H,
    name: &'a str,
    limit: usize,
) -> Result<Vec<u8>, Refusal<'a>>
    ensures bytes { IfOk result (λ v. IsFront (limit + 1) (H.holds host.old name.now) v.items) }
    ensures unread { IfErr result (IsUnreadOf (H.load_faults host.old) (H.load_faults host.new) name.now) }
    ensures sent { (o : Out) → H.sent host.new o ≡ H.sent host.old o }
    ensures on { GoesOn H.holds H.load_faults H.send_faults host.old host.new }
{
    match host.load(alloc, name, limit) {
        Ok(bytes) => Ok(bytes),
        Err(LoadError::Failed) => Err(Refusal::Unread(name)),
        Err(LoadError::Memory) => Err(Refusal::Memory),
    }
}

// Why bytes gave no program; want of memory is no fault of theirs.
fn exe_refusal<'a>(error: ExeError) -> Refusal<'a>
    ensures { (error ≡ ExeError.Memory) × (result ≡ Refusal.Memory) ⊎ (error ≢ ExeError.Memory) × (result ≡ Refusal.Program error) }
{
    match error {
        ExeError::Memory => Refusal::Memory,
        ExeError::TooLong { .. } => Refusal::Program(error),
        ExeError::Short => Refusal::Program(error),
        ExeError::NoMark => Refusal::Program(error),
        ExeError::TextRange { .. } => Refusal::Program(error),
        ExeError::Truncated { .. } => Refusal::Program(error),
        ExeError::FillRange { .. } => Refusal::Program(error),
        ExeError::BadPc { .. } => Refusal::Program(error),
    }
}

// The bytes of a text are bytes: it does nothing, as the function below.
fn are_bytes(text: &[u8])
    ensures { All (λ b. b < 2 ^ 8) text.now }
{
    let _len = text.len();
}

// A program that was read is accepted: its numbers are words, and its text is bytes.
fn accepted(exe: &Exe)
    requires { IsReadable exe.now }
    ensures { IsAccepted exe.now }
{
    let _gp = exe.gp;
    are_bytes(exe.text.as_slice());
}

/// Loads a program.
pub(crate) fn load_exe<'a, H: Host>(
    alloc: Global,
    host: &mut H,
    name: &'a str,
) -> Result<Exe, Refusal<'a>>
    ensures program { IfOk result (λ exe. GivesProgram (IsLoaded (H.holds host.old)) name.now (Ok exe)) }
    ensures accepted { IfOk result IsAccepted }
    ensures cause { IfErr result (OfProgram (H.holds host.old) (H.load_faults host.old) (H.load_faults host.new) name.now) }
    ensures sent { (o : Out) → H.sent host.new o ≡ H.sent host.old o }
    ensures on { GoesOn H.holds H.load_faults H.send_faults host.old host.new }
{
    let bytes = match load(alloc, host, name, EXE_LIMIT) {
        Ok(bytes) => bytes,
        Err(refusal) => return Err(refusal),
    };
    match Exe::read(alloc, &bytes) {
        Ok(exe) => {
            accepted(&exe);
            Ok(exe)
        }
        Err(error) => Err(exe_refusal(error)),
    }
}

// Why a text gave no schedule.
fn schedule_refusal<'a>(error: SchedError) -> Refusal<'a>
    ensures { (error ≡ SchedError.Memory) × (result ≡ Refusal.Memory) ⊎ (error ≢ SchedError.Memory) × (result ≡ Refusal.Schedule error) }
{
    match error {
        SchedError::Memory => Refusal::Memory,
        SchedError::TooLong { .. } => Refusal::Schedule(error),
        SchedError::BadLine { .. } => Refusal::Schedule(error),
        SchedError::OutOfOrder { .. } => Refusal::Schedule(error),
        SchedError::TooMany => Refusal::Schedule(error),
    }
}

// Loads a schedule, where one is named.
fn load_schedule<'a, H: Host>(
    alloc: Global,
    host: &mut H,
    name: Option<&'a str>,
) -> Result<Schedule, Refusal<'a>>
    ensures schedule { IfOk result (λ entries. GivesSchedule (IsLoaded (H.holds host.old)) (word_of name.entry) (Ok entries)) }
    ensures bytes { IfOk result AreBytes }
    ensures cause { IfErr result (OfSchedule (H.holds host.old) (H.load_faults host.old) (H.load_faults host.new) (word_of name.entry)) }
    ensures sent { (o : Out) → H.sent host.new o ≡ H.sent host.old o }
    ensures on { GoesOn H.holds H.load_faults H.send_faults host.old host.new }
{
    let Some(name) = name else {
        return Ok(Schedule::new(alloc));
    };
    let text = match load(alloc, host, name, TEXT_LIMIT) {
        Ok(text) => text,
        Err(refusal) => return Err(refusal),
    };
    match Schedule::read(alloc, &text) {
        Ok(schedule) => Ok(schedule),
        Err(error) => Err(schedule_refusal(error)),
    }
}

// Why a text gave no object.
fn text_refusal<'a>(error: AsmError) -> Refusal<'a>
    ensures { (error ≡ AsmError.Memory) × (result ≡ Refusal.Memory) ⊎ (error ≢ AsmError.Memory) × (result ≡ Refusal.Text error) }
{
    match error {
        AsmError::Memory => Refusal::Memory,
        AsmError::TooLong { .. } => Refusal::Text(error),
        AsmError::Line { .. } => Refusal::Text(error),
    }
}

/// Loads an assembly text, and assembles it in the window.
pub(crate) fn load_text<'a, H: Host>(
    alloc: Global,
    host: &mut H,
    name: &'a str,
) -> Result<Object, Refusal<'a>>
    ensures placed { IfOk result (λ object. GivesPlaced (IsLoaded (H.holds host.old)) name.now (Ok (placed_by object))) }
    ensures window { IfOk result (λ object. AreInWindow (bytes_of_parts object.parts)) }
    ensures cause { IfErr result (OfText (H.holds host.old) (H.load_faults host.old) (H.load_faults host.new) name.now) }
    ensures sent { (o : Out) → H.sent host.new o ≡ H.sent host.old o }
    ensures on { GoesOn H.holds H.load_faults H.send_faults host.old host.new }
{
    let text = match load(alloc, host, name, TEXT_LIMIT) {
        Ok(text) => text,
        Err(refusal) => return Err(refusal),
    };
    match assemble(alloc, &text, FROM, TO) {
        Ok(object) => Ok(object),
        Err(error) => Err(text_refusal(error)),
    }
}

// Loads the sizes of a configuration, where one is named.
fn load_sizes<'a, H: Host>(
    alloc: Global,
    host: &mut H,
    name: Option<&'a str>,
) -> Result<Sizes, Refusal<'a>>
    ensures sizes { IfOk result (λ sizes. GivesSizes (IsLoaded (H.holds host.old)) (word_of name.entry) (Ok sizes)) }
    ensures threads { IfOk result (λ sizes. (4 ≤ sizes.threads) × (sizes.threads ≤ 16)) }
    ensures events { IfOk result (λ sizes. (16 ≤ sizes.events) × (sizes.events ≤ 64)) }
    ensures cause { IfErr result (OfSizes (H.holds host.old) (H.load_faults host.old) (H.load_faults host.new) (word_of name.entry)) }
    ensures sent { (o : Out) → H.sent host.new o ≡ H.sent host.old o }
    ensures on { GoesOn H.holds H.load_faults H.send_faults host.old host.new }
{
    let Some(name) = name else {
        return Ok(PLAIN_SIZES);
    };
    let text = match load(alloc, host, name, TEXT_LIMIT) {
        Ok(text) => text,
        Err(refusal) => return Err(refusal),
    };
    match config(&text) {
        Ok(sizes) => Ok(sizes),
        Err(error) => Err(Refusal::Config(error)),
    }
}

/// Loads the files of a run, in the order of program, schedule and configuration.
pub(crate) fn prepare<'a, H: Host>(
    alloc: Global,
    host: &mut H,
    run: Run<'a>,
) -> Result<Inputs, Refusal<'a>>
    ensures given { IfOk result (GivesAll (IsLoaded (H.holds host.old)) (told_run run.entry)) }
    ensures runnable { IfOk result IsRunnable }
    ensures cause { IfErr result (IsCause (H.holds host.old) (H.load_faults host.old) (H.load_faults host.new) (told_run run.entry)) }
    ensures sent { (o : Out) → H.sent host.new o ≡ H.sent host.old o }
    ensures on { GoesOn H.holds H.load_faults H.send_faults host.old host.new }
{
    let exe = match load_exe(alloc, host, run.name) {
        Ok(exe) => exe,
        Err(refusal) => return Err(refusal),
    };
    let schedule = match load_schedule(alloc, host, run.schedule) {
        Ok(schedule) => schedule,
        Err(refusal) => return Err(refusal),
    };
    match load_sizes(alloc, host, run.config) {
        Ok(sizes) => Ok(Inputs {
            exe,
            schedule,
            sizes,
        }),
        Err(refusal) => Err(refusal),
    }
}

/// Makes the workload of so many rounds.
pub(crate) fn generate(alloc: Global, rounds: u32) -> Result<Inputs, Memory>
    requires some { 0 < rounds }
    requires most { rounds ≤ 1000 }
    ensures inputs { IfOk result (λ inputs. inputs ≡ workload_inputs rounds) }
    ensures runnable { IfOk result IsRunnable }
{
    let (exe, schedule) = workload(alloc, rounds)?;
    accepted(&exe);
    Ok(Inputs {
        exe,
        schedule,
        sizes: PLAIN_SIZES,
    })
}
