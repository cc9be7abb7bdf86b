//! The top call: all that the program does.
ghost use Rattle.std.specs.Prelude.{◌≡◌, false, ◌⊎◌, ◌<◌, IfSome, IsNone, ◌≤◌, All};
ghost use Rattle.psx_base.specs.Host.{Rose};
ghost use Rattle.psx_base.specs.declared.host.Out.{Out};
ghost use Rattle.psx_board.specs.Machine.{Machine};
ghost use Rattle.psx_board.specs.Run.{run};
ghost use Rattle.psx_board.specs.Stands.{Stands};
ghost use Rattle.kern_image.specs.Rom.{rom};
ghost use Rattle.abs_run.specs.Accepted.{IsAccepted};
ghost use Rattle.psxk_run.specs.Command.{command_of, ToRun, ToPrint, ToAssemble, ToGenerate};
ghost use Rattle.psxk_run.specs.Commands.{Decides};
ghost use Rattle.psxk_run.specs.Complete.{IsUnhindered, Completes};
ghost use Rattle.psxk_run.specs.Printing.{printing};
ghost use Rattle.psxk_run.specs.Ends.{CommandEnds, EndsRun, moment};
ghost use Rattle.psxk_run.specs.InPart.{HasFronts, ReportsFront, TextInPart, WordsInPart};
ghost use Rattle.psxk_run.specs.Inputs.{IsRunnable};
ghost use Rattle.psxk_run.specs.Reports.{usage_line, memory_line};
ghost use Rattle.psxk_run.specs.Sent.{Grew, GrewFront, GoesOn, OnlyReports, FrontAlone, Says, SendsText};
ghost use Rattle.psxk_run.specs.Texts.{report_of, status_of};
ghost use Rattle.psxk_run.specs.Told.{told, told_run, IsInRange};
ghost use Rattle.psxk_run.specs.Top.{IsDone, IsRefused, IsUnread, IsFaulty, IsQuiet, IsStatus, RunsBoard, RunsProgram, MakesText, run_of};
ghost use Rattle.psxk_run.specs.Words.{words_of, IfCommand};
ghost use Rattle.psxk_run.specs.Assembling.{AreInWindow, assembling};
ghost use Rattle.psx_asm.specs.Placing.{bytes_of_parts};
ghost use Rattle.psx_asm.specs.Assembly.{placed_by};

use crate::assembling::assembling;
use crate::command::{Request, Run, command};
use crate::inputs::{Inputs, generate, load_exe, load_text, prepare};
use crate::printing::printing;
use crate::refusal::{Refusal, refuse, say, say_memory};
use crate::report::stop_line;
use crate::run::{RunEnd, run_on};
use kern_image::build;
use kern_image::serving::serving;
use psx_asm::Object;
use psx_base::{Host, Out, Stop};
use psx_board::Board;
use psx_exe::Exe;
use std::alloc::Global;

const USAGE: &[u8] = b"psxk: usage: run EXE SCHED BUDGET [CNF], image, asm TEXT, dis EXE, gen N\n";

/// The most steps that the workload may take.
const WORKLOAD_BUDGET: u32 = 50_000_000;

// The status of a run that ends so.
fn status_of(stop: Stop) -> u8
    ensures { result ≡ status_of stop }
{
    match stop {
        Stop::Exit { .. } => 0,
        Stop::Budget => 0,
        Stop::UserFetch { .. } => 1,
        Stop::UserData { .. } => 1,
        Stop::Protected { .. } => 1,
        Stop::SlotBranch { .. } => 1,
        Stop::Exception { .. } => 1,
        Stop::Unserved { .. } => 1,
        Stop::BadPointer { .. } => 1,
        Stop::BadThread { .. } => 1,
        Stop::Deep { .. } => 1,
        Stop::BadReturn { .. } => 1,
    }
}

// Reports a stop, where it is one that is reported.
fn say_stop<H: Host>(host: &mut H, stop: Stop) -> u8
    ensures says { Says (H.sent host.old) (H.sent host.new) (H.send_faults host.old) (H.send_faults host.new) (report_of stop) (status_of stop) result }
    ensures front { GrewFront (H.sent host.old Out.Report) (H.sent host.new Out.Report) (report_of stop) }
    ensures only { OnlyReports (H.sent host.old) (H.sent host.new) }
    ensures on { GoesOn H.holds H.load_faults H.send_faults host.old host.new }
{
    let status = status_of(stop);
    if status == 0 {
        return 0;
    }
    say(host, stop_line(stop).as_slice(), status)
}

// Runs a board, and reports its stop.
fn run_board<H: Host>(host: &mut H, board: &mut Board, budget: u32) -> u8
    requires fresh { board.old.taken ≡ 0 }
    requires budget { 0 < budget }
    ensures ran { (m : Machine) → Stands board.old m → m.began ≡ false → RunsBoard (H.sent host.old) (H.sent host.new) (H.send_faults host.old) (H.send_faults host.new) (run budget m) result }
    ensures fronts { (m : Machine) → Stands board.old m → m.began ≡ false → HasFronts (H.sent host.old) (H.sent host.new) (run budget m) }
    ensures on { GoesOn H.holds H.load_faults H.send_faults host.old host.new }
{
    match run_on(board, budget, host) {
        RunEnd::Done(stop) => say_stop(host, stop),
        RunEnd::Failed => 6,
    }
}

// Runs a program on a board with the image.
fn run_program<H: Host>(alloc: Global, host: &mut H, inputs: Inputs, budget: u32) -> u8
    requires runnable { IsRunnable inputs }
    requires budget { 0 < budget }
    ensures ran { RunsProgram (H.sent host.old) (H.sent host.new) (H.send_faults host.old) (H.send_faults host.new) (run_of inputs budget) result }
    ensures fronts { HasFronts (H.sent host.old) (H.sent host.new) (run_of inputs budget) ⊎ ReportsFront (H.sent host.old) (H.sent host.new) memory_line }
    ensures on { GoesOn H.holds H.load_faults H.send_faults host.old host.new }
{
    let Ok(image) = build(alloc) else {
        return say_memory(host);
    };
    let Inputs {
        exe,
        schedule,
        sizes,
    } = inputs;
    match Board::new(alloc, image.rom(), &exe, schedule, sizes) {
        Ok(mut board) => run_board(host, &mut board, budget),
        Err(_) => say_memory(host),
    }
}

// Runs a program on a board with the image, by which it is a run of the kernel machine.
fn run_inputs<H: Host>(alloc: Global, host: &mut H, inputs: Inputs, budget: u32) -> u8
    requires runnable { IsRunnable inputs }
    requires budget { 0 < budget }
    ensures ends { EndsRun (moment H.holds H.sent H.load_faults H.send_faults host.old) (moment H.holds H.sent H.load_faults H.send_faults host.new) inputs budget result }
    ensures on { GoesOn H.holds H.load_faults H.send_faults host.old host.new }
{
    serving();
    run_program(alloc, host, inputs, budget)
}

// Runs the program of a run's files.
fn run_files<H: Host>(alloc: Global, host: &mut H, run: Run) -> u8
    requires { 0 < run.budget }
    ensures ends { CommandEnds (moment H.holds H.sent H.load_faults H.send_faults host.old) (moment H.holds H.sent H.load_faults H.send_faults host.new) (ToRun (told_run run.entry)) result }
    ensures on { GoesOn H.holds H.load_faults H.send_faults host.old host.new }
{
    match prepare(alloc, host, run) {
        Ok(inputs) => run_inputs(alloc, host, inputs, run.budget),
        Err(refusal) => refuse(host, refusal),
    }
}

// Runs the workload.
fn run_workload<H: Host>(alloc: Global, host: &mut H, rounds: u32) -> u8
    requires some { 0 < rounds }
    requires most { rounds ≤ 1000 }
    ensures ends { CommandEnds (moment H.holds H.sent H.load_faults H.send_faults host.old) (moment H.holds H.sent H.load_faults H.send_faults host.new) (ToGenerate rounds) result }
    ensures on { GoesOn H.holds H.load_faults H.send_faults host.old host.new }
{
    match generate(alloc, rounds) {
        Ok(inputs) => run_inputs(alloc, host, inputs, WORKLOAD_BUDGET),
        Err(_) => refuse(host, Refusal::Memory),
    }
}

// Sends a text of a command, and answers the status.
fn send_text<H: Host>(host: &mut H, out: Out, text: &[u8]) -> u8
    ensures sends { SendsText (H.sent host.old) (H.sent host.new) (H.send_faults host.old) (H.send_faults host.new) out text.now result }
    ensures front { FrontAlone (H.sent host.old) (H.sent host.new) out text.now }
    ensures on { GoesOn H.holds H.load_faults H.send_faults host.old host.new }
{
    match host.send(out, text) {
        Ok(()) => 0,
        Err(_) => 6,
    }
}

// Sends the ROM.
fn send_image<H: Host>(alloc: Global, host: &mut H) -> u8
    ensures sends { MakesText (H.sent host.old) (H.sent host.new) (H.send_faults host.old) (H.send_faults host.new) Out.Ram rom result }
    ensures front { TextInPart (H.sent host.old) (H.sent host.new) Out.Ram rom }
    ensures on { GoesOn H.holds H.load_faults H.send_faults host.old host.new }
{
    match build(alloc) {
        Ok(image) => send_text(host, Out::Ram, image.rom()),
        Err(_) => say_memory(host),
    }
}

// Sends the printed words of a program.
fn send_printing<H: Host>(alloc: Global, host: &mut H, exe: &Exe) -> u8
    requires { IsAccepted exe.now }
    ensures sends { MakesText (H.sent host.old) (H.sent host.new) (H.send_faults host.old) (H.send_faults host.new) Out.Tty (printing exe.now) result }
    ensures front { TextInPart (H.sent host.old) (H.sent host.new) Out.Tty (printing exe.now) }
    ensures on { GoesOn H.holds H.load_faults H.send_faults host.old host.new }
{
    match printing(alloc, exe) {
        Ok(text) => send_text(host, Out::Tty, text.as_bytes()),
        Err(_) => say_memory(host),
    }
}

// Prints the words of a program's file.
fn print_file<H: Host>(alloc: Global, host: &mut H, name: &str) -> u8
    ensures ends { CommandEnds (moment H.holds H.sent H.load_faults H.send_faults host.old) (moment H.holds H.sent H.load_faults H.send_faults host.new) (ToPrint name.now) result }
    ensures on { GoesOn H.holds H.load_faults H.send_faults host.old host.new }
{
    match load_exe(alloc, host, name) {
        Ok(exe) => send_printing(alloc, host, &exe),
        Err(refusal) => refuse(host, refusal),
    }
}

// Sends the program of an object.
fn send_assembling<H: Host>(alloc: Global, host: &mut H, object: &Object) -> u8
    requires { AreInWindow (bytes_of_parts object.now.parts) }
    ensures sends { MakesText (H.sent host.old) (H.sent host.new) (H.send_faults host.old) (H.send_faults host.new) Out.Ram (assembling (placed_by object.now)) result }
    ensures front { TextInPart (H.sent host.old) (H.sent host.new) Out.Ram (assembling (placed_by object.now)) }
    ensures on { GoesOn H.holds H.load_faults H.send_faults host.old host.new }
{
    match assembling(alloc, object) {
        Ok(file) => send_text(host, Out::Ram, &file),
        Err(_) => say_memory(host),
    }
}

// Assembles the text of a file.
fn assemble_file<H: Host>(alloc: Global, host: &mut H, name: &str) -> u8
    ensures ends { CommandEnds (moment H.holds H.sent H.load_faults H.send_faults host.old) (moment H.holds H.sent H.load_faults H.send_faults host.new) (ToAssemble name.now) result }
    ensures on { GoesOn H.holds H.load_faults H.send_faults host.old host.new }
{
    match load_text(alloc, host, name) {
        Ok(object) => send_assembling(alloc, host, &object),
        Err(refusal) => refuse(host, refusal),
    }
}

// Does what the words ask for.
fn run_command<H: Host>(alloc: Global, host: &mut H, request: Request) -> u8
    requires { IsInRange request }
    ensures ends { CommandEnds (moment H.holds H.sent H.load_faults H.send_faults host.old) (moment H.holds H.sent H.load_faults H.send_faults host.new) (told request.entry) result }
    ensures on { GoesOn H.holds H.load_faults H.send_faults host.old host.new }
{
    match request {
        Request::Run(run) => run_files(alloc, host, run),
        Request::Image => send_image(alloc, host),
        Request::Print(name) => print_file(alloc, host, name),
        Request::Assemble(name) => assemble_file(alloc, host, name),
        Request::Generate(rounds) => run_workload(alloc, host, rounds),
    }
}

/// All that the program does: from the words behind its name to the status that it ends with.
///
/// Statuses: 0 the command was done, a run with Exit or Budget, 1 the run with another stop; 2 the words are in no command's form; 3 the program has a fault, 4 the schedule,
/// 8 the assembly text, 9 the configuration; 5 a file wasn't read; 6 a sending failed; 7 want of memory. A report is one line.
pub fn psxk<H: Host>(alloc: Global, words: &[&str], host: &mut H) -> u8
    ensures listed { IsStatus result }

    // With status 0 or 1 all files were loaded and accepted, and exactly the texts of the run, of theirs or of the workload, or the one text of the command, were sent.
    // A run is one of the written kernel machine with its program: each step of the user, each stay in the kernel, its console bytes and the user's memory at its end.
    // Each interrupt of it returns, or comes to the first function that it calls, in at most 8,192 steps behind the one that takes it: by the counts of its E and its X.
    ensures done { (result ≡ 0) ⊎ (result ≡ 1) → IfCommand words.now (λ c. IsDone H.holds H.sent host.old host.new c result) }

    // The other statuses have their causes. What a host tells of its files decides, but for a load or a sending that failed and want of memory.
    // A load that failed is an answer only where the files before it were accepted.
    ensures usage { result ≡ 2 → IsNone (command_of (words_of words.now)) }
    ensures usage_only { IsNone (command_of (words_of words.now)) → (result ≡ 2) ⊎ (result ≡ 6) }
    ensures refused { IsFaulty result → IfCommand words.now (λ c. IsRefused H.holds H.sent host.old host.new c result) }
    ensures only { IfSome (command_of (words_of words.now)) (λ c. Decides (H.holds host.old) c result) }
    ensures read { result ≡ 5 → IfCommand words.now (λ c. IsUnread H.holds H.load_faults H.sent host.old host.new c) }
    ensures write { result ≡ 6 → Rose (H.send_faults host.old) (H.send_faults host.new) }

    // Where the words are in a command's form, the host tells the files and they have no fault, and no load and no sending failed by its counts, the command is done: a run ends as the board's run does.
    ensures complete { IsUnhindered (H.load_faults host.old) (H.load_faults host.new) (H.send_faults host.old) (H.send_faults host.new) → IfSome (command_of (words_of words.now)) (λ c. Completes (H.holds host.old) c result) }

    // What isn't done sends nothing but its report.
    ensures quiet { (result ≡ 2) ⊎ IsQuiet result → OnlyReports (H.sent host.old) (H.sent host.new) }
    ensures report_usage { result ≡ 2 → Grew (H.sent host.old Out.Report) (H.sent host.new Out.Report) usage_line }
    ensures report_memory { result ≡ 7 → Grew (H.sent host.old Out.Report) (H.sent host.new Out.Report) memory_line }

    // In every case each output has a front of its text more, Ram a byte only where Tty and Trace are whole, and Report one of a run's stop only where Ram is whole too.
    // Where the report of a file that wasn't read breaks off, its count of loads rose too.
    ensures fronts { WordsInPart H.holds H.load_faults H.sent host.old host.new (command_of (words_of words.now)) }
    ensures on { GoesOn H.holds H.load_faults H.send_faults host.old host.new }
{
    match command(words) {
        Some(request) => run_command(alloc, host, request),
        None => say(host, USAGE, 2),
    }
}
