//! The processor's registers, and the ways in which an instruction changes them.
ghost use Rattle.std.specs.Prelude.{◌≡◌, ◌+◌, ◌^◌, ◌<◌, nat_eq, if◌then◌else◌};
ghost use Rattle.psx_base.specs.Registers.{register};
ghost use Rattle.psx_cpu.specs.Changes;
ghost use Rattle.psx_cpu.specs.Exceptions;
ghost use Rattle.psx_cpu.specs.Changes.{with_value, branch_target, link_address, names, coming, cop0_read, sr_kept, latest};
ghost use Rattle.psx_base.specs.Context.{settle, settled};

use psx_ins::reg::Reg;
use std::marker::Model;

/// A processor. Contracts see it as a context with coprocessor 0 and the latch, which is set on the kernel's side.
#[derive(Drop)]
pub struct Cpu {
    regs: [u32; 32],
    hi: u32,
    lo: u32,
    // The register of the pending load, 0 where none is pending, and its value.
    pending: u32,
    pending_value: u32,
    pc: u32,
    next_pc: u32,
    in_slot: bool,
    sr: u32,
    cause: u32,
    epc: u32,
    bad_address: u32,
    latch: bool,
}

impl Model for Cpu {
    ghost use Rattle.std.specs.Prelude.{◌≡◌, ◌<◌, ◌+◌, ◌^◌, get_or};
    ghost use Rattle.psx_cpu.specs.Processor.{Processor};
    ghost use Rattle.psx_cpu.specs.Views.{registers_of};
    ghost use Rattle.psx_cpu.specs.Changes.{coming};

    ghost Value = { Processor };

    ghost view = { λ a. record {
      context = record { regs = registers_of a.regs a.hi a.lo; pending = coming a.pending a.pending_value; pc = a.pc; next = a.next_pc; in_slot = a.in_slot };
      cop0 = record { sr = a.sr; cause = a.cause; epc = a.epc; bad_address = a.bad_address };
      latch = a.latch;
    } };

    ghost invariant = { λ a. record { zero : get_or a.regs 0 0 ≡ 0; register : a.pending < 32; code : a.cause < 2 ^ 31 + 2 ^ 7 } };
}

impl Cpu {
    /// The processor as it is after reset.
    pub fn reset() -> Cpu
        ensures { result ≡ Exceptions.reset }
    {
        Cpu {
            regs: [0; 32],
            hi: 0,
            lo: 0,
            pending: 0,
            pending_value: 0,
            pc: 0xBFC0_0000,
            next_pc: 0xBFC0_0004,
            in_slot: false,
            sr: 0x0040_0000,
            cause: 0,
            epc: 0,
            bad_address: 0,
            latch: true,
        }
    }

    /// A general register, without the pending load.
    #[inline]
    pub fn reg(&self, n: Reg) -> u32
        requires { n.0 < 32 }
        ensures { result ≡ register self.now.context.regs n.0 }
    {
        self.regs[n.0 as usize]
    }

    /// The upper word of products, and remainders.
    #[inline]
    pub fn hi(&self) -> u32
        ensures { result ≡ self.now.context.regs.hi }
    {
        self.hi
    }

    /// The lower word of products, and quotients.
    #[inline]
    pub fn lo(&self) -> u32
        ensures { result ≡ self.now.context.regs.lo }
    {
        self.lo
    }

    /// The address of the coming instruction.
    #[inline]
    pub fn pc(&self) -> u32
        ensures { result ≡ self.now.context.pc }
    {
        self.pc
    }

    /// The address of the instruction after the coming one.
    #[inline]
    pub fn next_pc(&self) -> u32
        ensures { result ≡ self.now.context.next }
    {
        self.next_pc
    }

    /// Whether the coming instruction is in a delay slot.
    #[inline]
    pub fn in_slot(&self) -> bool
        ensures { result ≡ self.now.context.in_slot }
    {
        self.in_slot
    }

    /// The status register.
    #[inline]
    pub fn sr(&self) -> u32
        ensures { result ≡ self.now.cop0.sr }
    {
        self.sr
    }

    /// The cause of the last exception. Bit 10 is 0 here: it is the interrupt line at each step.
    pub fn cause(&self) -> u32
        ensures value { result ≡ self.now.cop0.cause }
        ensures small { result < 2 ^ 31 + 2 ^ 7 }
    {
        self.cause
    }

    /// The address at which the last exception's instruction, or its branch, stands.
    pub fn epc(&self) -> u32
        ensures { result ≡ self.now.cop0.epc }
    {
        self.epc
    }

    /// The last address that wasn't aligned.
    pub fn bad_address(&self) -> u32
        ensures { result ≡ self.now.cop0.bad_address }
    {
        self.bad_address
    }

    /// Whether the processor is on the kernel's side.
    #[inline]
    pub fn latch(&self) -> bool
        ensures { result ≡ self.now.latch }
    {
        self.latch
    }

    // Writes a register. r0 stays 0.
    #[inline]
    fn put(&mut self, n: u32, value: u32)
        requires { n < 32 }
        ensures { self.new ≡ record self.old { context = with_value self.old.context n value } }
    {
        if n != 0 {
            self.regs[n as usize] = value;
        }
    }

    // Writes the pending load.
    #[inline]
    fn settle(&mut self)
        ensures { self.new ≡ record self.old { context = settle self.old.context } }
    {
        self.put(self.pending, self.pending_value);
        self.pending = 0;
    }

    #[inline]
    fn forth(&mut self)
        ensures { self.new ≡ record self.old { context = Changes.forth self.old.context } }
    {
        self.pc = self.next_pc;
        self.next_pc = self.next_pc.wrapping_add(4);
        self.in_slot = false;
    }

    #[inline]
    fn through_slot(&mut self, to: u32)
        ensures { self.new ≡ record self.old { context = Changes.through_slot self.old.context to } }
    {
        self.pc = self.next_pc;
        self.next_pc = to;
        self.in_slot = true;
    }

    // On to the next instruction, after one that changes no register.
    #[inline]
    pub(crate) fn pass(&mut self)
        ensures { self.new ≡ record self.old { context = Changes.forth (settle self.old.context) } }
    {
        self.settle();
        self.forth();
    }

    // The result of an instruction.
    #[inline]
    pub(crate) fn write(&mut self, d: Reg, value: u32)
        requires { d.0 < 32 }
        ensures { self.new ≡ record self.old { context = Changes.forth (with_value (settle self.old.context) d.0 value) } }
    {
        self.settle();
        self.put(d.0, value);
        self.forth();
    }

    // The results of a product or quotient.
    #[inline]
    pub(crate) fn write_hi_lo(&mut self, hi: u32, lo: u32)
        ensures { self.new ≡ record self.old { context = let c = settle self.old.context in Changes.forth (record c { regs = record c.regs { hi = hi; lo = lo } }) } }
    {
        self.settle();
        self.hi = hi;
        self.lo = lo;
        self.forth();
    }

    #[inline]
    pub(crate) fn jump(&mut self, to: u32)
        ensures { self.new ≡ record self.old { context = Changes.through_slot (settle self.old.context) to } }
    {
        self.settle();
        self.through_slot(to);
    }

    // A jump with the address after the slot in a register.
    #[inline]
    pub(crate) fn link(&mut self, n: u32, to: u32)
        requires { n < 32 }
        ensures { self.new ≡ record self.old { context = Changes.through_slot (with_value (settle self.old.context) n (link_address self.old.context)) to } }
    {
        self.settle();
        self.put(n, self.next_pc.wrapping_add(4));
        self.through_slot(to);
    }

    #[inline]
    pub(crate) fn branch_target(&self, taken: bool, imm: u16) -> u32
        ensures { result ≡ branch_target self.now.context taken imm }
    {
        if taken {
            let offset = crate::arithmetic::sign_extended(imm).wrapping_mul(4);
            self.next_pc.wrapping_add(offset)
        } else {
            self.next_pc.wrapping_add(4)
        }
    }

    #[inline]
    pub(crate) fn jump_target(&self, target: u32) -> u32
        requires { target < 2 ^ 26 }
        ensures { result ≡ Changes.jump_target self.now.context target }
    {
        self.next_pc / 0x1000_0000 * 0x1000_0000 + target * 4
    }

    // The value of a load, which comes one instruction later.
    #[inline]
    pub(crate) fn load(&mut self, t: Reg, value: u32)
        requires { t.0 < 32 }
        ensures { self.new ≡ record self.old { context = let c = self.old.context in Changes.forth (record c { regs = if names c.pending t.0 then c.regs else settled c.regs c.pending; pending = coming t.0 value }) } }
    {
        if self.pending != t.0 {
            self.settle();
        }
        self.pending = t.0;
        self.pending_value = value;
        self.forth();
    }

    // A register as LWL and LWR take it.
    pub(crate) fn latest(&self, n: Reg) -> u32
        requires { n.0 < 32 }
        ensures { result ≡ latest self.now.context n.0 }
    {
        if self.pending != 0 && self.pending == n.0 {
            self.pending_value
        } else {
            self.reg(n)
        }
    }

    pub(crate) fn cop0(&self, n: Reg, line: bool) -> u32
        ensures { result ≡ cop0_read self.now.cop0 line n.0 }
    {
        match n.0 {
            8 => self.bad_address,
            12 => self.sr,
            13 => self.cause + line as u32 * 0x400,
            14 => self.epc,
            _ => 0,
        }
    }

    pub(crate) fn write_cop0(&mut self, n: Reg, value: u32)
        ensures { self.new ≡ record self.old { context = Changes.forth (settle self.old.context); cop0 = if nat_eq n.0 12 then record self.old.cop0 { sr = sr_kept value } else self.old.cop0 } }
    {
        if n.0 == 12 {
            self.sr = value & 0x0041_FF3F;
        }
        self.pass();
    }

    // Whether an interrupt is taken where a line is pending.
    #[inline]
    pub(crate) fn takes_interrupt(&self, line: bool) -> bool
        ensures { result ≡ Exceptions.takes_interrupt self.now line }
    {
        line && self.sr % 2 == 1 && self.sr / 0x400 % 2 == 1
    }

    // Enters the kernel by an exception.
    pub(crate) fn enter(&mut self, code: u32, bad: Option<u32>)
        requires { code < 32 }
        ensures { self.new ≡ Exceptions.enter self.old (record { code = code; bad = bad }) }
    {
        self.settle();
        self.cause = code * 4 + self.in_slot as u32 * 0x8000_0000;
        self.epc = if self.in_slot {
            self.pc.wrapping_sub(4)
        } else {
            self.pc
        };
        self.bad_address = bad.unwrap_or(self.bad_address);
        self.pc = vector(self.sr);
        self.next_pc = self.pc + 4;
        self.in_slot = false;
        self.sr = self.sr / 64 * 64 + self.sr % 16 * 4;
        self.latch = true;
    }

    // Returns from an exception.
    pub(crate) fn leave(&mut self)
        ensures { self.new ≡ Exceptions.leave self.old }
    {
        self.pass();
        self.sr = self.sr / 16 * 16 + self.sr / 4 % 16;
        self.latch = false;
    }
}

// Where an exception goes.
fn vector(sr: u32) -> u32
    ensures value { result ≡ Exceptions.vector sr }
    ensures room { result + 4 < 2 ^ 32 }
{
    if sr / 0x40_0000 % 2 == 1 {
        0xBFC0_0180
    } else {
        0x8000_0080
    }
}
