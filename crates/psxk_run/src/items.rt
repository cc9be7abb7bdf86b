//! The items of a step, from what the processor holds after it.
ghost use Rattle.std.specs.Prelude.{◌≡◌, ◌+◌, ◌^◌, ◌<◌, Bool, nat_le, if◌then◌else◌};
ghost use Rattle.psx_base.specs.Memory.{Memory};
ghost use Rattle.psx_trace.specs.Plain.{entrance_of, item_of, registers_of};
ghost use Rattle.psx_cpu.specs.Views.{core_of};
ghost use Rattle.psx_base.specs.Entrances;
ghost use Rattle.psx_board.specs.Entries;

use psx_base::{Addr, Gate};
use psx_cpu::Cpu;
use psx_ins::reg::Reg;
use psx_trace::{Entered, Item, Regs};

// By what the kernel was entered with a code.
fn entrance(code: u32, cpu: &Cpu) -> Entered
    ensures { entrance_of result ≡ Entrances.entrance code (nat_le (2 ^ 31) cpu.now.cop0.cause) cpu.now.cop0.epc }
{
    if code == 0 {
        return Entered::Interrupt;
    }
    if code != 8 || cpu.cause() >= 0x8000_0000 {
        return Entered::Trap;
    }
    match Addr(cpu.epc()).gate() {
        Some(Gate::A) => Entered::A,
        Some(Gate::B) => Entered::B,
        Some(Gate::C) => Entered::C,
        Some(Gate::Done) => Entered::Done,
        Some(Gate::Back) => Entered::Back,
        None => Entered::Sys,
    }
}

// The number of an entry.
fn number(gate: Entered, code: u32, cpu: &Cpu) -> u32
    ensures { result ≡ Entrances.number (entrance_of gate) code cpu.now.context.regs }
{
    match gate {
        Entered::A => cpu.reg(Reg(9)),
        Entered::B => cpu.reg(Reg(9)),
        Entered::C => cpu.reg(Reg(9)),
        Entered::Sys => cpu.reg(Reg(4)),
        Entered::Interrupt => 0,
        Entered::Done => cpu.reg(Reg(2)),
        Entered::Back => cpu.reg(Reg(2)),
        Entered::Trap => code,
    }
}

// The item of an entry after so many steps.
pub(crate) fn entry(count: u64, code: u32, line: bool, cpu: &Cpu) -> Item
    ensures { (bytes : Memory) → item_of result ≡ Entries.entry count code line (core_of cpu.now bytes) }
{
    let gate = entrance(code, cpu);
    Item::E {
        count,
        cause: cpu.cause() + line as u32 * 0x400,
        epc: cpu.epc(),
        gate,
        number: number(gate, code, cpu),
    }
}

// r1 to r31.
fn registers(cpu: &Cpu) -> Regs
    ensures { registers_of result.0 cpu.now.context.regs.hi cpu.now.context.regs.lo ≡ cpu.now.context.regs }
{
    let mut words = [0u32; 31];
    for n in 0..31u32 {
        words[n as usize] = cpu.reg(Reg(n + 1));
    }
    Regs(words)
}

// The item of a return, the first or a further one, which was the step after so many.
pub(crate) fn returned(count: u64, began: bool, cpu: &Cpu) -> Item
    requires { count + 1 < 2 ^ 64 }
    ensures { (bytes : Memory) → item_of result ≡ Entries.return count began (core_of cpu.now bytes) }
{
    if began {
        Item::X {
            count: count + 1,
            pc: cpu.pc(),
            sr: cpu.sr(),
            hi: cpu.hi(),
            lo: cpu.lo(),
            regs: registers(cpu),
        }
    } else {
        Item::B { count: count + 1 }
    }
}
