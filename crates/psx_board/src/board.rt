//! The board and its steps.
ghost use Rattle.std.specs.Prelude.{◌≡◌, ℕ, ◌+◌, ◌-◌, ◌^◌, ◌<◌, ◌≤◌, [], length, replicate, Some, None, IfOk, IsTrue, List};
ghost use Rattle.psx_base.specs.Addresses;
ghost use Rattle.psx_base.specs.FirstBad.{first_bad_of};
ghost use Rattle.psx_base.specs.Memory.{put_bytes};
ghost use Rattle.psx_base.specs.PortAddresses.{port};
ghost use Rattle.psx_exe.specs.Placed;
ghost use Rattle.psx_exe.specs.Placed.{placed};
ghost use Rattle.psx_exe.specs.Reading.{IsReadable};
ghost use Rattle.psx_cpu.specs.Step.{step, port_read, IsPortDid};
ghost use Rattle.psx_cpu.specs.Views.{core_of};
ghost use Rattle.psx_sched.specs.declared.schedule.Entry.{Entry};
ghost use Rattle.psx_ports.specs.History;
ghost use Rattle.psx_ports.specs.History.{written};
ghost use Rattle.psx_board.specs.Machine.{Machine, start};
ghost use Rattle.psx_board.specs.Delivery;
ghost use Rattle.psx_board.specs.Turn.{turn, asked, answered};
ghost use Rattle.psx_board.specs.StepDid.{step_did};
ghost use Rattle.psx_board.specs.Devices.{Carries};
ghost use Rattle.psx_board.specs.Finished.{Counted, Wrote, Finished, finished, after_read, stop_of};
ghost use Rattle.psx_board.specs.Stands.{Stands, Turned, WentOn};
ghost use Rattle.psx_board.specs.SoFar.{StandsAfter};

use crate::devices::Devices;
use psx_base::{Addr, Memory, Sizes, Stop};
use psx_cpu::{BusAnswer, Cpu, Did};
use psx_exe::Exe;
use psx_ports::{PortDid, Ports};
use psx_ram::Ram;
use psx_sched::Schedule;
use std::alloc::Global;
use std::marker::Model;

/// A board. It keeps no history; contracts say for which machine it stands.
#[derive(Drop)]
pub struct Board {
    cpu: Cpu,
    ram: Ram,
    devices: Devices,
    stopped: Option<Stop>,
}

impl Model for Board {
    ghost use Rattle.std.specs.Coded.{codes};
    ghost use Rattle.psx_base.specs.Memory.{memory_code};
    ghost use Rattle.psx_cpu.specs.Views.{core_of};
    ghost use Rattle.psx_board.specs.Stands.{View, IsSound};

    ghost Value = { View };

    ghost coded = { Prim.hlevel (codes, memory_code) };

    ghost view = { λ b. record { core = core_of b.cpu b.ram; devices = b.devices; taken = b.devices.count; stopped = b.stopped } };

    // Where no step is finished nothing has stopped.
    ghost invariant = { λ b. IsSound (record { core = core_of b.cpu b.ram; devices = b.devices; taken = b.devices.count; stopped = b.stopped }) };
}

// Copies bytes to user memory.
#[tactic(auto, using(crate::proofs::Ranges::user_mapped, crate::proofs::Ranges::user_writable), unfolding(psx_base::specs::Memory::put_bytes))]
fn copy(ram: &mut Ram, at: u32, bytes: &[u8])
    requires { first_bad_of at (length bytes.now) ≡ None }
    ensures { ram.new ≡ put_bytes ram.old (Addresses.place at) bytes.now }
{
    if !bytes.is_empty() {
        ram.load(Addr(at).place(), bytes);
    }
}

// Clears user memory.
#[tactic(auto, using(crate::proofs::Ranges::user_mapped, crate::proofs::Ranges::user_writable), unfolding(psx_base::specs::Memory::put_bytes))]
fn clear(ram: &mut Ram, at: u32, len: u32)
    requires { first_bad_of at len ≡ None }
    ensures { ram.new ≡ put_bytes ram.old (Addresses.place at) (replicate len 0) }
{
    if len != 0 {
        ram.fill(Addr(at).place(), len);
    }
}

// Places the text of a program, and then clears its fill.
fn place_program(ram: &mut Ram, exe: &Exe)
    requires { IsReadable exe.now }
    ensures { ram.new ≡ placed ram.old exe.now }
{
    copy(ram, exe.dest, exe.text.as_slice());
    clear(ram, exe.fill_start, exe.fill_size);
}

// Where the stack of a program begins.
fn stack_top(exe: &Exe) -> u32
    ensures { result ≡ Placed.stack_top exe.now }
{
    if exe.sp_base == 0 {
        0x801F_FF00
    } else {
        exe.sp_base.wrapping_add(exe.sp_offset)
    }
}

// What the port that the coming step reads answers, and 0 where it reads none.
#[inline]
fn ask(cpu: &Cpu, ram: &Ram, devices: &mut Devices, line: bool) -> u32
    ensures same { (m : Machine) (value : ℕ) → core_of cpu.now ram.now ≡ m.core → line ≡ History.line m.history → port_read (step m.core (record { line = History.line m.history; value = value })) ≡ asked m }
    ensures value { (m : Machine) → core_of cpu.now ram.now ≡ m.core → line ≡ History.line m.history → Carries devices.old m.history m.waiting → result ≡ answered m.history (asked m) }
    ensures carries { (m : Machine) → core_of cpu.now ram.now ≡ m.core → line ≡ History.line m.history → Carries devices.old m.history m.waiting → Carries devices.new (after_read m.history (asked m)) m.waiting }
    ensures counted { devices.new.count ≡ devices.old.count }
{
    match cpu.peek_port(ram, line) {
        Some(read) => devices.read(read.at),
        None => 0,
    }
}

// Ends a step that wrote to a port, and tells what it did.
fn finish_write(devices: &mut Devices, at: u32, value: u32) -> Did
    requires room { devices.old.count < 2 ^ 64 - 1 }
    requires port { IsTrue (port at) }
    ensures ended { (h : History.History) (waiting : List Entry) → Carries devices.old h waiting → Wrote h waiting at value (written h at value) result devices.new }
    ensures counted { devices.new.count ≡ devices.old.count + 1 }
{
    let told = devices.write(at, value);
    devices.advance();
    match told {
        PortDid::Halt(stop) => Did::Stopped(stop),
        PortDid::Quiet => Did::PortWrite { at, value },
        PortDid::Tty(_) => Did::PortWrite { at, value },
    }
}

// Counts a step that did this.
#[inline]
fn count(devices: &mut Devices, did: Did) -> Did
    requires { devices.old.count < 2 ^ 64 - 1 }
    ensures told { result ≡ did }
    ensures ended { (h : History.History) (waiting : List Entry) → Carries devices.old h waiting → Counted devices.new h waiting }
    ensures counted { devices.new.count ≡ devices.old.count + 1 }
{
    devices.advance();
    did
}

// Ends a step by what the processor did, and tells what the step did.
#[inline]
fn finish(devices: &mut Devices, did: Did) -> Did
    requires room { devices.old.count < 2 ^ 64 - 1 }
    requires port { IsPortDid did }
    ensures ended { (h : History.History) (waiting : List Entry) → Carries devices.old h waiting → Finished h waiting did result devices.new }
    ensures counted { devices.new.count ≡ devices.old.count + finished did }
    ensures went { WentOn result → finished did ≡ 1 }
{
    match did {
        Did::PortWrite { at, value } => finish_write(devices, at, value),
        Did::Stopped(_) => did,
        Did::Plain => count(devices, did),
        Did::PortRead { .. } => count(devices, did),
        Did::Entered { .. } => count(devices, did),
        Did::Left => count(devices, did),
    }
}

// Keeps the stop that a step told.
#[inline]
fn keep(stopped: &mut Option<Stop>, did: Did)
    requires { stopped.old ≡ None }
    ensures { stopped.new ≡ stop_of did }
{
    match did {
        Did::Stopped(stop) => *stopped = Some(stop),
        Did::Plain => {}
        Did::PortRead { .. } => {}
        Did::PortWrite { .. } => {}
        Did::Entered { .. } => {}
        Did::Left => {}
    }
}

impl Board {
    /// A board at reset, with a program placed in its memory: the text, and then zeros in its fill. An Err is want of memory.
    ///
    /// The ROM's 80000h bytes stand at 1FC00000h, where the first instruction is fetched (PSX-SPX, Memory Map). The start ports answer with the program's pc, gp and stack,
    /// and with the sizes: 4 to 16 threads and 16 to 64 events. The entries of the schedule reach the ports at their counts. A refusal drops the schedule.
    pub fn new(
        alloc: Global,
        rom: &[u8],
        exe: &Exe,
        schedule: Schedule,
        sizes: Sizes,
    ) -> Result<Board, Memory>
        requires rom { length rom.now ≡ 0x80000 }
        requires readable { IsReadable exe.now }
        requires threads { (4 ≤ sizes.threads) × (sizes.threads ≤ 16) }
        requires events { (16 ≤ sizes.events) × (sizes.events ≤ 64) }
        ensures stands { IfOk result (λ b. Stands b (start rom.now exe.now sizes schedule)) }
        ensures running { IfOk result (λ b. b.stopped ≡ None) }
        ensures after { IfOk result (λ b. StandsAfter b 0 (start rom.now exe.now sizes schedule)) }
    {
        let mut ram = Ram::new(alloc, rom)?;
        place_program(&mut ram, exe);
        let ports = Ports::new(alloc, exe.pc, exe.gp, stack_top(exe), sizes)?;
        Ok(Board {
            cpu: Cpu::reset(),
            ram,
            devices: Devices::new(ports, schedule),
            stopped: None,
        })
    }

    /// The number of finished steps since reset. Where it is 0 nothing has stopped.
    #[inline]
    pub fn taken(&self) -> u64
        ensures count { result ≡ self.now.taken }
        ensures fresh { result ≡ 0 → self.now.stopped ≡ None }
    {
        self.devices.count()
    }

    /// What a step stopped with, if one has. A board that has stopped takes no further step.
    #[inline]
    pub fn stopped(&self) -> Option<Stop>
        ensures { result ≡ self.now.stopped }
    {
        self.stopped
    }

    /// Whether a line that isn't masked is pending, as the coming step finds it.
    #[inline]
    pub fn line(&self) -> bool
        ensures { (m : Machine) → Stands self.now m → result ≡ Delivery.line m }
    {
        self.devices.line()
    }

    /// The processor, as the finished steps left it.
    #[inline]
    pub fn cpu(&self) -> &Cpu
        ensures { result.now ≡ self.now.core.processor }
    {
        &self.cpu
    }

    /// The memory, by physical address: user and kernel memory, scratchpad and ROM.
    #[inline]
    pub fn ram(&self) -> &Ram
        ensures { result.now ≡ self.now.core.bytes }
    {
        &self.ram
    }

    /// One step, and what it did: an instruction with its accesses, an exception or interrupt taken, or a stop.
    ///
    /// A write to a port is told as PortWrite, to the console too: its byte is the word modulo 256. A halt is Stopped, and finishes its step; a stop of the guard finishes none.
    /// Ports are told by physical address, and words are 32 bits.
    #[inline]
    #[tactic(auto, unfolding(crate::specs::Turn::turn))]
    pub fn step(&mut self) -> Did
        requires running { self.old.stopped ≡ None }
        requires room { self.old.taken < 2 ^ 64 - 1 }
        ensures turns { (m : Machine) → Stands self.old m → Turned m (turn m) result self.new }
        ensures did { (m : Machine) → Stands self.old m → result ≡ step_did m }
        ensures after { (calls : ℕ) (m : Machine) → StandsAfter self.old calls m → StandsAfter self.new (calls + 1) m }
        ensures counted { self.new.taken ≤ self.old.taken + 1 }
        ensures went { WentOn result → self.new.taken ≡ self.old.taken + 1 }
        ensures runs_on { WentOn result → self.new.stopped ≡ None }
    {
        let line = self.devices.line();
        let value = ask(&self.cpu, &self.ram, &mut self.devices, line);
        let did = self.cpu.step(&mut self.ram, BusAnswer { line, value });
        let did = finish(&mut self.devices, did);
        keep(&mut self.stopped, did);
        did
    }
}
