//! All ports together, by their addresses.
ghost use Rattle.std.specs.Prelude.{◌≡◌, ◌≢◌, false, ℕ, ◌+◌, ◌-◌, ◌^◌, ◌≤◌, ◌<◌, [], ◌∷◌, ◌++◌, length, IfOk, IsTrue};
ghost use Rattle.psx_base.specs.PortAddresses.{port};
ghost use Rattle.psx_ports.specs.History;
ghost use Rattle.psx_ports.specs.History.{History, Read, Write, Raise, Give, then_event, at_count, answer, written, is_counter_port};
ghost use Rattle.psx_ports.specs.Stands.{StandsFor};

use crate::PortDid;
use crate::console::{Console, ROOM};
use crate::counters::{Counters, is_counter_port};
use crate::halts::Halts;
use crate::interrupts::Interrupts;
use psx_base::ports::{
    CONSOLE_DATA, CONSOLE_STATUS, HALT, I_MASK, I_STAT, START_EVENTS, START_GP, START_PC, START_SP,
    START_THREADS,
};
use psx_base::{Memory, Sizes};
use std::alloc::Global;
use std::marker::Model;

/// The ports. They keep no history; contracts say for which histories they stand.
#[derive(Drop)]
pub struct Ports {
    pc: u32,
    gp: u32,
    sp: u32,
    sizes: Sizes,
    halts: Halts,
    console: Console,
    interrupts: Interrupts,
    counters: Counters,
    /// The count up to which the counters have made their turns.
    count: u64,
    /// No counter changes the interrupt line before this count.
    deadline: u64,
}

impl Model for Ports {
    ghost use Rattle.psx_ports.specs.Stands.{KeptPorts, AreSince};

    ghost Value = { KeptPorts };

    ghost view = { λ p. record {
      given = record { pc = p.pc; gp = p.gp; sp = p.sp; threads = p.sizes.threads; events = p.sizes.events };
      a = p.halts.a;
      b = p.halts.b;
      c = p.halts.c;
      console = p.console;
      interrupts = p.interrupts;
      counters = p.counters;
      now = p.count;
      deadline = p.deadline;
    } };

    ghost invariant = { λ p. AreSince p.counters p.count };
}

impl Ports {
    /// Ports as they are after reset, at the count 0: all 0 but for the start ports. An Err is want of memory for the bytes that may wait.
    pub fn new(alloc: Global, pc: u32, gp: u32, sp: u32, sizes: Sizes) -> Result<Ports, Memory>
        requires threads { (4 ≤ sizes.threads) × (sizes.threads ≤ 16) }
        requires events { (16 ≤ sizes.events) × (sizes.events ≤ 64) }
        ensures { IfOk result (λ p. StandsFor p (record { given = record { pc = pc; gp = gp; sp = sp; threads = sizes.threads; events = sizes.events }; events = []; now = 0 })) }
    {
        let counters = Counters::new();
        let deadline = counters.next();
        Ok(Ports {
            pc,
            gp,
            sp,
            sizes,
            halts: Halts { a: 0, b: 0, c: 0 },
            console: Console::new(alloc)?,
            interrupts: Interrupts::new(),
            counters,
            count: 0,
            deadline,
        })
    }

    /// Raises an interrupt line: its bit of I_STAT is set. Lines: 0 VBLANK, 1 GPU, 2 CDROM, 3 DMA, 4 to 6 counters 0 to 2, 7 controller and card, 8 SIO, 9 SPU, 10 lightpen.
    pub fn raise(&mut self, line: u32)
        requires { line ≤ 10 }
        ensures stands { (h : History) → StandsFor self.old h → StandsFor self.new (then_event h (Raise h.now line)) }
        ensures now { self.new.now ≡ self.old.now }
        ensures console { self.new.console ≡ self.old.console }
    {
        self.interrupts.raise(1 << line);
    }

    /// Gives the console a byte, which waits behind those given before.
    pub fn give(&mut self, byte: u8)
        requires { length self.old.console < 65536 }
        ensures stands { (h : History) → StandsFor self.old h → StandsFor self.new (then_event h (Give h.now byte)) }
        ensures now { self.new.now ≡ self.old.now }
        ensures console { self.new.console ≡ self.old.console ++ byte ∷ [] }
    {
        self.console.give(byte);
    }

    /// How many bytes wait for the console's data port.
    pub fn held(&self) -> usize
        ensures held { result ≡ length self.now.console }
        ensures within { result ≤ 65536 }
    {
        self.console.len()
    }

    /// Whether a line that isn't masked is pending.
    #[inline]
    pub fn line(&self) -> bool
        ensures line { (h : History) → StandsFor self.now h → result ≡ History.line h }
        ensures kept { result ≡ self.now.interrupts.line }
    {
        self.interrupts.line
    }

    /// The next count at which a counter may change the interrupt line, or 2^64 - 1 where none is known.
    #[inline]
    pub fn deadline(&self) -> u64
        ensures { result ≡ self.now.deadline }
    {
        self.deadline
    }

    /// Makes the counters' turns of every count after the last one up to a new one.
    #[inline]
    pub fn tick(&mut self, count: u64)
        requires { self.old.now ≤ count }
        ensures stands { (h : History) → StandsFor self.old h → StandsFor self.new (at_count h count) }
        ensures now { self.new.now ≡ count }
        ensures console { self.new.console ≡ self.old.console }
    {
        if count < self.deadline {
            self.count = count;
        } else {
            self.pass(count);
        }
    }

    // Makes the turns up to a count at which a counter may raise its line.
    fn pass(&mut self, count: u64)
        requires { self.old.now ≤ count }
        ensures stands { (h : History) → StandsFor self.old h → StandsFor self.new (at_count h count) }
        ensures now { self.new.now ≡ count }
        ensures console { self.new.console ≡ self.old.console }
    {
        self.count = count;
        let lines = self.counters.turn_to(count);
        self.interrupts.raise(lines);
        self.deadline = self.counters.next();
    }

    // What a port answers whose read changes nothing: none of the counters, nor the console's data port.
    #[tactic(auto, unfolding(crate::specs::History::answer))]
    fn look(&self, at: u32) -> u32
        requires data { at ≢ CONSOLE_DATA }
        requires counter { is_counter_port at ≡ false }
        ensures { (h : History) → StandsFor self.now h → result ≡ answer h at }
    {
        match at {
            I_STAT => self.interrupts.pending,
            I_MASK => self.interrupts.mask,
            CONSOLE_STATUS => self.console.status(),
            START_PC => self.pc,
            START_GP => self.gp,
            START_SP => self.sp,
            START_THREADS => self.sizes.threads,
            START_EVENTS => self.sizes.events,
            _ => 0,
        }
    }

    /// What a port answers to a read. A read of the console's data port takes the byte that it gives, and a read of a counter's mode clears its bits 11 and 12.
    pub fn read(&mut self, at: u32) -> u32
        requires { IsTrue (port at) }
        ensures value { (h : History) → StandsFor self.old h → result ≡ answer h at }
        ensures stands { (h : History) → StandsFor self.old h → StandsFor self.new (then_event h (Read h.now at)) }
        ensures now { self.new.now ≡ self.old.now }
        ensures held { length self.new.console ≤ length self.old.console }
    {
        if at == CONSOLE_DATA {
            return self.console.take();
        }
        if is_counter_port(at) {
            let value = self.counters.read(self.count, at);
            self.deadline = self.counters.next();
            return value;
        }
        self.look(at)
    }

    /// Writes to a port, and tells what it did beyond it.
    pub fn write(&mut self, at: u32, value: u32) -> PortDid
        requires { IsTrue (port at) }
        ensures did { (h : History) → StandsFor self.old h → result ≡ written h at value }
        ensures stands { (h : History) → StandsFor self.old h → StandsFor self.new (then_event h (Write h.now at value)) }
        ensures now { self.new.now ≡ self.old.now }
        ensures console { self.new.console ≡ self.old.console }
    {
        if is_counter_port(at) {
            self.counters.write(self.count, at, value);
            self.deadline = self.counters.next();
            return PortDid::Quiet;
        }
        match at {
            I_STAT => self.interrupts.acknowledge(value),
            I_MASK => self.interrupts.set_mask(value),
            CONSOLE_DATA => return PortDid::Tty((value % 0x100) as u8),
            HALT => return self.halts.halt(value),
            _ => self.halts.write(at, value),
        }
        PortDid::Quiet
    }
}
