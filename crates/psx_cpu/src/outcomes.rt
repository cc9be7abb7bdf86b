//! Results, branches and exceptions, each told as what a step did.
ghost use Rattle.std.specs.Prelude.{◌≡◌, ◌*◌, ◌/◌, ◌%◌, ◌^◌, ◌<◌, ◌*ℤ◌, ◌&&◌, not, if◌then◌else◌};
ghost use Rattle.std.specs.Int.{w64, cast_unsigned};
ghost use Rattle.psx_base.specs.Memory.{Memory};
ghost use Rattle.psx_base.specs.Registers.{register};
ghost use Rattle.psx_base.specs.Context.{settle};
ghost use Rattle.psx_ins.specs.declared.ins.Ins.TheVariants.{ADD, SUB, ADDI, MFC0, MTC0, RFE};
ghost use Rattle.psx_cpu.specs.Changes.{forth, through_slot, with_value, link_address, branch_target};
ghost use Rattle.psx_cpu.specs.Exceptions;
ghost use Rattle.psx_cpu.specs.Processor.{Bus, idle};
ghost use Rattle.psx_cpu.specs.Views.{core_of};
ghost use Rattle.psx_cpu.specs.Words.{signed, quotient, remainder, quotient_signed, remainder_signed};
ghost use Rattle.psx_cpu.specs.Step.{decided, Does, Stops, Goes};
ghost use Rattle.psx_base.specs.declared.stop.Stop.TheVariants.{SlotBranch};

use crate::arithmetic as number;
use crate::cpu::Cpu;
use crate::step::{BusAnswer, Did};
use psx_base::Stop;
use psx_ins::reg::Reg;

impl Cpu {
    // A result in a register.
    #[inline]
    pub(crate) fn gives(&mut self, d: Reg, value: u32) -> Did
        requires { d.0 < 32 }
        ensures cpu { self.new ≡ record self.old { context = forth (with_value (settle self.old.context) d.0 value) } }
        ensures told { result ≡ Did.Plain }
    {
        self.write(d, value);
        Did::Plain
    }

    // Results in HI and LO.
    #[inline]
    pub(crate) fn gives_hi_lo(&mut self, hi: u32, lo: u32) -> Did
        ensures cpu { self.new ≡ record self.old { context = let c = settle self.old.context in forth (record c { regs = record c.regs { hi = hi; lo = lo } }) } }
        ensures told { result ≡ Did.Plain }
    {
        self.write_hi_lo(hi, lo);
        Did::Plain
    }

    pub(crate) fn multiply_signed(&mut self, s: Reg, t: Reg) -> Did
        requires { (s.0 < 32) × (t.0 < 32) }
        ensures cpu { self.new ≡ record self.old {
          context = let c = settle self.old.context in let o = self.old.context.regs in let p = cast_unsigned w64 (signed (register o s.0) *ℤ signed (register o t.0)) in
              forth (record c { regs = record c.regs { hi = p / 2 ^ 32; lo = p % 2 ^ 32 } });
        } }
        ensures told { result ≡ Did.Plain }
    {
        let product = number::product_signed(self.reg(s), self.reg(t));
        self.gives_hi_lo(
            (product / 0x1_0000_0000) as u32,
            (product % 0x1_0000_0000) as u32,
        )
    }

    pub(crate) fn multiply(&mut self, s: Reg, t: Reg) -> Did
        requires { (s.0 < 32) × (t.0 < 32) }
        ensures cpu { self.new ≡ record self.old {
          context = let c = settle self.old.context in let o = self.old.context.regs in
              forth (record c { regs = record c.regs { hi = register o s.0 * register o t.0 / 2 ^ 32; lo = register o s.0 * register o t.0 % 2 ^ 32 } });
        } }
        ensures told { result ≡ Did.Plain }
    {
        let (hi, lo) = number::product_unsigned(self.reg(s), self.reg(t));
        self.gives_hi_lo(hi, lo)
    }

    pub(crate) fn divide_signed(&mut self, s: Reg, t: Reg) -> Did
        requires { (s.0 < 32) × (t.0 < 32) }
        ensures cpu { self.new ≡ record self.old {
          context = let c = settle self.old.context in let o = self.old.context.regs in
              forth (record c { regs = record c.regs { hi = remainder_signed (register o s.0) (register o t.0); lo = quotient_signed (register o s.0) (register o t.0) } });
        } }
        ensures told { result ≡ Did.Plain }
    {
        let hi = number::remainder_signed(self.reg(s), self.reg(t));
        let lo = number::quotient_signed(self.reg(s), self.reg(t));
        self.gives_hi_lo(hi, lo)
    }

    pub(crate) fn divide(&mut self, s: Reg, t: Reg) -> Did
        requires { (s.0 < 32) × (t.0 < 32) }
        ensures cpu { self.new ≡ record self.old {
          context = let c = settle self.old.context in let o = self.old.context.regs in
              forth (record c { regs = record c.regs { hi = remainder (register o s.0) (register o t.0); lo = quotient (register o s.0) (register o t.0) } });
        } }
        ensures told { result ≡ Did.Plain }
    {
        let hi = number::remainder(self.reg(s), self.reg(t));
        let lo = number::quotient(self.reg(s), self.reg(t));
        self.gives_hi_lo(hi, lo)
    }

    // An exception.
    pub(crate) fn raise(&mut self, code: u32, bad: Option<u32>) -> Did
        requires { code < 32 }
        ensures cpu { self.new ≡ Exceptions.enter self.old (record { code = code; bad = bad }) }
        ensures told { result ≡ Did.Entered code }
    {
        self.enter(code, bad);
        Did::Entered { code }
    }

    pub(crate) fn add(&mut self, s: Reg, t: Reg, d: Reg) -> Did
        requires { (s.0 < 32) × (t.0 < 32) × (d.0 < 32) }
        ensures { (m : Memory) (bus : Bus) → Does (core_of self.old m) (decided (core_of self.old m) bus (ADD s t d)) result (core_of self.new m) }
    {
        if number::sum_overflows(self.reg(s), self.reg(t)) {
            return self.raise(12, None);
        }
        self.gives(d, self.reg(s).wrapping_add(self.reg(t)))
    }

    pub(crate) fn subtract(&mut self, s: Reg, t: Reg, d: Reg) -> Did
        requires { (s.0 < 32) × (t.0 < 32) × (d.0 < 32) }
        ensures { (m : Memory) (bus : Bus) → Does (core_of self.old m) (decided (core_of self.old m) bus (SUB s t d)) result (core_of self.new m) }
    {
        if number::difference_overflows(self.reg(s), self.reg(t)) {
            return self.raise(12, None);
        }
        self.gives(d, self.reg(s).wrapping_sub(self.reg(t)))
    }

    pub(crate) fn add_immediate(&mut self, s: Reg, t: Reg, imm: u16) -> Did
        requires { (s.0 < 32) × (t.0 < 32) }
        ensures { (m : Memory) (bus : Bus) → Does (core_of self.old m) (decided (core_of self.old m) bus (ADDI s t imm)) result (core_of self.new m) }
    {
        let n = number::sign_extended(imm);
        if number::sum_overflows(self.reg(s), n) {
            return self.raise(12, None);
        }
        self.gives(t, self.reg(s).wrapping_add(n))
    }

    // A jump, which is barred in a delay slot of the user's.
    #[inline]
    pub(crate) fn goes_to(&mut self, to: u32) -> Did
        ensures { (m : Memory) → Does (core_of self.old m)
            (if self.old.context.in_slot && not self.old.latch then Stops (SlotBranch self.old.context.pc) else Goes (core_of (record self.old { context = through_slot (settle self.old.context) to }) m))
            result (core_of self.new m) }
    {
        if self.in_slot() && !self.latch() {
            return Did::Stopped(Stop::SlotBranch { pc: self.pc() });
        }
        self.jump(to);
        Did::Plain
    }

    // A jump with the address after the slot in a register.
    #[inline]
    pub(crate) fn calls(&mut self, n: u32, to: u32) -> Did
        requires { n < 32 }
        ensures { (m : Memory) → Does (core_of self.old m)
            (if self.old.context.in_slot && not self.old.latch then Stops (SlotBranch self.old.context.pc)
            else Goes (core_of (record self.old { context = through_slot (with_value (settle self.old.context) n (link_address self.old.context)) to }) m))
            result (core_of self.new m) }
    {
        if self.in_slot() && !self.latch() {
            return Did::Stopped(Stop::SlotBranch { pc: self.pc() });
        }
        self.link(n, to);
        Did::Plain
    }

    #[inline]
    pub(crate) fn branches(&mut self, taken: bool, imm: u16) -> Did
        ensures { (m : Memory) → Does (core_of self.old m)
            (if self.old.context.in_slot && not self.old.latch then Stops (SlotBranch self.old.context.pc)
            else Goes (core_of (record self.old { context = through_slot (settle self.old.context) (branch_target self.old.context taken imm) }) m))
            result (core_of self.new m) }
    {
        self.goes_to(self.branch_target(taken, imm))
    }

    #[inline]
    pub(crate) fn branches_and_links(&mut self, taken: bool, imm: u16) -> Did
        ensures { (m : Memory) → Does (core_of self.old m)
            (if self.old.context.in_slot && not self.old.latch then Stops (SlotBranch self.old.context.pc)
            else Goes (core_of (record self.old { context = through_slot (with_value (settle self.old.context) 31 (link_address self.old.context)) (branch_target self.old.context taken imm) }) m))
            result (core_of self.new m) }
    {
        self.calls(31, self.branch_target(taken, imm))
    }

    pub(crate) fn move_from_cop0(&mut self, bus: BusAnswer, t: Reg, d: Reg) -> Did
        requires { (t.0 < 32) × (d.0 < 32) }
        ensures { (m : Memory) → Does (core_of self.old m) (decided (core_of self.old m) bus (MFC0 t d)) result (core_of self.new m) }
    {
        if self.latch() {
            self.load(t, self.cop0(d, bus.line));
            return Did::Plain;
        }
        Did::Stopped(Stop::Protected { pc: self.pc() })
    }

    pub(crate) fn move_to_cop0(&mut self, t: Reg, d: Reg) -> Did
        requires { (t.0 < 32) × (d.0 < 32) }
        ensures { (m : Memory) (bus : Bus) → Does (core_of self.old m) (decided (core_of self.old m) bus (MTC0 t d)) result (core_of self.new m) }
    {
        if !self.latch() {
            return Did::Stopped(Stop::Protected { pc: self.pc() });
        }
        self.write_cop0(d, self.reg(t));
        Did::Plain
    }

    // The return from an exception.
    pub(crate) fn returns(&mut self) -> Did
        ensures { (m : Memory) → Does (core_of self.old m) (decided (core_of self.old m) idle RFE) result (core_of self.new m) }
    {
        if !self.latch() {
            return Did::Stopped(Stop::Protected { pc: self.pc() });
        }
        self.leave();
        Did::Left
    }
}
