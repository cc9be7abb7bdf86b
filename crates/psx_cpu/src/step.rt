//! One step of the processor.
ghost use Rattle.std.specs.Prelude.{◌≡◌, ◌||◌, is_some, IsTrue, true};
ghost use Rattle.psx_base.specs.Addresses.{user, gate_of};
ghost use Rattle.psx_cpu.specs.Traps;
ghost use Rattle.psx_cpu.specs.Views.{core_of};
ghost use Rattle.psx_cpu.specs.Step;
ghost use Rattle.psx_cpu.specs.Step.{Does, IsPortDid};

use crate::access::read_word;
use crate::cpu::Cpu;
use psx_base::{Addr, Stop};
use psx_ins::decode;
use psx_ram::Ram;

/// What a step gets from outside.
#[derive(Clone, Copy, PartialEq, Eq, Debug)]
pub struct BusAnswer {
    /// Whether a pending line isn't masked.
    pub line: bool,
    /// What the port that the step reads answers.
    pub value: u32,
}

/// The port that a step reads.
#[derive(Clone, Copy, PartialEq, Eq, Debug)]
pub struct PortRead {
    /// Its physical address.
    pub at: u32,
}

/// What a step did.
#[derive(Clone, Copy, PartialEq, Eq, Debug)]
pub enum Did {
    /// No port was reached, and the side stayed.
    Plain,
    /// LW read a port: its physical address, and the answer.
    PortRead { at: u32, value: u32 },
    /// SW wrote a port: its physical address, and the word.
    PortWrite { at: u32, value: u32 },
    /// An exception or interrupt was taken. Its code is that of Cause: 0 is an interrupt (R3000A manual, exception processing).
    Entered { code: u32 },
    /// RFE was executed, and the processor is on the user's side.
    Left,
    /// The guard stopped it. Nothing has changed.
    Stopped(Stop),
}

// The exception of a word that is no instruction.
fn reserved_code(word: u32) -> u32
    ensures { result ≡ Traps.reserved_code word }
{
    let op = word / 0x400_0000;
    if op % 4 == 0 {
        return 10;
    }
    if op / 4 == 4 || op / 4 == 12 || op / 4 == 14 {
        11
    } else {
        10
    }
}

// Whether an address is user memory in the cached segment, as that of most code.
#[tactic(auto, unfolding(psx_base::specs::Addresses::user))]
#[inline]
fn is_near(at: u32) -> bool
    ensures { IsTrue result → user at ≡ true }
{
    at >= 0x8001_0000 && at < 0x8020_0000
}

impl Cpu {
    // Whether the coming instruction may be fetched.
    #[inline]
    fn may_fetch(&self) -> bool
        ensures { result ≡ (self.now.latch || (user self.now.context.pc || is_some (gate_of self.now.context.pc))) }
    {
        let pc = Addr(self.pc());
        self.latch() || is_near(self.pc()) || pc.is_user() || pc.gate().is_some()
    }

    /// One step: an interrupt is taken, or the instruction at pc has its effect, raises an exception or is stopped by the guard.
    pub fn step(&mut self, ram: &mut Ram, bus: BusAnswer) -> Did
        ensures does { Does (core_of self.old ram.old) (Step.step (core_of self.old ram.old) bus) result (core_of self.new ram.new) }
        ensures port { IsPortDid result }
    {
        self.step_once(ram, bus)
    }

    #[tactic(auto, unfolding(crate::specs::Step::step))]
    fn step_once(&mut self, ram: &mut Ram, bus: BusAnswer) -> Did
        ensures { Does (core_of self.old ram.old) (Step.step (core_of self.old ram.old) bus) result (core_of self.new ram.new) }
    {
        if self.takes_interrupt(bus.line) {
            return self.raise(0, None);
        }
        if self.pc() % 4 != 0 {
            return self.raise(4, Some(self.pc()));
        }
        if !self.may_fetch() {
            return Did::Stopped(Stop::UserFetch { at: self.pc() });
        }
        let word = read_word(ram, self.pc());
        match decode(word) {
            Some(ins) => self.perform(ram, bus, ins),
            None => self.raise(reserved_code(word), None),
        }
    }
}
