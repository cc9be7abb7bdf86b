//! Loads and stores, under the guard.
ghost use Rattle.std.specs.Prelude.{◌≡◌, ◌<◌, ◌||◌};
ghost use Rattle.psx_base.specs.Addresses.{user};
ghost use Rattle.psx_ins.specs.declared.ins.Ins.TheVariants.{LB, LH, LWL, LW, LBU, LHU, LWR, SB, SH, SWL, SW, SWR};
ghost use Rattle.psx_cpu.specs.DataAccess;
ghost use Rattle.psx_cpu.specs.Processor.{idle};
ghost use Rattle.psx_cpu.specs.Views.{core_of};
ghost use Rattle.psx_cpu.specs.Step.{decided, Does};

use crate::access::{
    loaded_left, loaded_right, read_byte, read_half, read_word, stored_left, stored_right,
    write_byte, write_half, write_word,
};
use crate::arithmetic as number;
use crate::cpu::Cpu;
use crate::step::{BusAnswer, Did};
use psx_base::{Addr, Stop, is_port};
use psx_ins::reg::Reg;
use psx_ram::Ram;

impl Cpu {
    #[inline]
    pub(crate) fn data_address(&self, s: Reg, imm: u16) -> u32
        requires { s.0 < 32 }
        ensures { result ≡ DataAccess.data_address self.now.context s imm }
    {
        self.reg(s).wrapping_add(number::sign_extended(imm))
    }

    // Whether an access to an address passes the guard.
    #[inline]
    fn may_use(&self, at: u32) -> bool
        ensures { result ≡ (self.now.latch || user at) }
    {
        self.latch() || Addr(at).is_user()
    }

    pub(crate) fn load_byte_signed(&mut self, ram: &Ram, s: Reg, t: Reg, imm: u16) -> Did
        requires { (s.0 < 32) × (t.0 < 32) }
        ensures { Does (core_of self.old ram.now) (decided (core_of self.old ram.now) idle (LB s t imm)) result (core_of self.new ram.now) }
    {
        let at = self.data_address(s, imm);
        if !self.may_use(at) {
            return Did::Stopped(Stop::UserData { pc: self.pc(), at });
        }
        self.load(t, number::byte_extended(read_byte(ram, at)));
        Did::Plain
    }

    pub(crate) fn load_half_signed(&mut self, ram: &Ram, s: Reg, t: Reg, imm: u16) -> Did
        requires { (s.0 < 32) × (t.0 < 32) }
        ensures { Does (core_of self.old ram.now) (decided (core_of self.old ram.now) idle (LH s t imm)) result (core_of self.new ram.now) }
    {
        let at = self.data_address(s, imm);
        if at % 2 != 0 {
            return self.raise(4, Some(at));
        }
        if !self.may_use(at) {
            return Did::Stopped(Stop::UserData { pc: self.pc(), at });
        }
        self.load(t, number::sign_extended(read_half(ram, at)));
        Did::Plain
    }

    pub(crate) fn load_left(&mut self, ram: &Ram, s: Reg, t: Reg, imm: u16) -> Did
        requires { (s.0 < 32) × (t.0 < 32) }
        ensures { Does (core_of self.old ram.now) (decided (core_of self.old ram.now) idle (LWL s t imm)) result (core_of self.new ram.now) }
    {
        let at = self.data_address(s, imm);
        if !self.may_use(at) {
            return Did::Stopped(Stop::UserData { pc: self.pc(), at });
        }
        let word = read_word(ram, at / 4 * 4);
        self.load(t, loaded_left(at % 4, self.latest(t), word));
        Did::Plain
    }

    #[tactic(auto, unfolding(crate::specs::DataAccess::load_word))]
    pub(crate) fn load_word(&mut self, ram: &Ram, bus: BusAnswer, s: Reg, t: Reg, imm: u16) -> Did
        requires { (s.0 < 32) × (t.0 < 32) }
        ensures { Does (core_of self.old ram.now) (decided (core_of self.old ram.now) bus (LW s t imm)) result (core_of self.new ram.now) }
    {
        let at = self.data_address(s, imm);
        if at % 4 != 0 {
            return self.raise(4, Some(at));
        }
        if !self.may_use(at) {
            return Did::Stopped(Stop::UserData { pc: self.pc(), at });
        }
        let to = Addr(at).place();
        if is_port(to) {
            self.load(t, bus.value);
            return Did::PortRead {
                at: to,
                value: bus.value,
            };
        }
        self.load(t, read_word(ram, at));
        Did::Plain
    }

    pub(crate) fn load_byte(&mut self, ram: &Ram, s: Reg, t: Reg, imm: u16) -> Did
        requires { (s.0 < 32) × (t.0 < 32) }
        ensures { Does (core_of self.old ram.now) (decided (core_of self.old ram.now) idle (LBU s t imm)) result (core_of self.new ram.now) }
    {
        let at = self.data_address(s, imm);
        if !self.may_use(at) {
            return Did::Stopped(Stop::UserData { pc: self.pc(), at });
        }
        self.load(t, read_byte(ram, at) as u32);
        Did::Plain
    }

    pub(crate) fn load_half(&mut self, ram: &Ram, s: Reg, t: Reg, imm: u16) -> Did
        requires { (s.0 < 32) × (t.0 < 32) }
        ensures { Does (core_of self.old ram.now) (decided (core_of self.old ram.now) idle (LHU s t imm)) result (core_of self.new ram.now) }
    {
        let at = self.data_address(s, imm);
        if at % 2 != 0 {
            return self.raise(4, Some(at));
        }
        if !self.may_use(at) {
            return Did::Stopped(Stop::UserData { pc: self.pc(), at });
        }
        self.load(t, read_half(ram, at) as u32);
        Did::Plain
    }

    pub(crate) fn load_right(&mut self, ram: &Ram, s: Reg, t: Reg, imm: u16) -> Did
        requires { (s.0 < 32) × (t.0 < 32) }
        ensures { Does (core_of self.old ram.now) (decided (core_of self.old ram.now) idle (LWR s t imm)) result (core_of self.new ram.now) }
    {
        let at = self.data_address(s, imm);
        if !self.may_use(at) {
            return Did::Stopped(Stop::UserData { pc: self.pc(), at });
        }
        let word = read_word(ram, at / 4 * 4);
        self.load(t, loaded_right(at % 4, self.latest(t), word));
        Did::Plain
    }

    pub(crate) fn store_byte(&mut self, ram: &mut Ram, s: Reg, t: Reg, imm: u16) -> Did
        requires { (s.0 < 32) × (t.0 < 32) }
        ensures { Does (core_of self.old ram.old) (decided (core_of self.old ram.old) idle (SB s t imm)) result (core_of self.new ram.new) }
    {
        let at = self.data_address(s, imm);
        if !self.may_use(at) {
            return Did::Stopped(Stop::UserData { pc: self.pc(), at });
        }
        write_byte(ram, at, (self.reg(t) % 0x100) as u8);
        self.pass();
        Did::Plain
    }

    pub(crate) fn store_half(&mut self, ram: &mut Ram, s: Reg, t: Reg, imm: u16) -> Did
        requires { (s.0 < 32) × (t.0 < 32) }
        ensures { Does (core_of self.old ram.old) (decided (core_of self.old ram.old) idle (SH s t imm)) result (core_of self.new ram.new) }
    {
        let at = self.data_address(s, imm);
        if at % 2 != 0 {
            return self.raise(5, Some(at));
        }
        if !self.may_use(at) {
            return Did::Stopped(Stop::UserData { pc: self.pc(), at });
        }
        write_half(ram, at, (self.reg(t) % 0x1_0000) as u16);
        self.pass();
        Did::Plain
    }

    pub(crate) fn store_left(&mut self, ram: &mut Ram, s: Reg, t: Reg, imm: u16) -> Did
        requires { (s.0 < 32) × (t.0 < 32) }
        ensures { Does (core_of self.old ram.old) (decided (core_of self.old ram.old) idle (SWL s t imm)) result (core_of self.new ram.new) }
    {
        let at = self.data_address(s, imm);
        if !self.may_use(at) {
            return Did::Stopped(Stop::UserData { pc: self.pc(), at });
        }
        let word = read_word(ram, at / 4 * 4);
        write_word(ram, at / 4 * 4, stored_left(at % 4, self.reg(t), word));
        self.pass();
        Did::Plain
    }

    pub(crate) fn store_word(&mut self, ram: &mut Ram, s: Reg, t: Reg, imm: u16) -> Did
        requires { (s.0 < 32) × (t.0 < 32) }
        ensures { Does (core_of self.old ram.old) (decided (core_of self.old ram.old) idle (SW s t imm)) result (core_of self.new ram.new) }
    {
        let at = self.data_address(s, imm);
        if at % 4 != 0 {
            return self.raise(5, Some(at));
        }
        if !self.may_use(at) {
            return Did::Stopped(Stop::UserData { pc: self.pc(), at });
        }
        let value = self.reg(t);
        let to = Addr(at).place();
        write_word(ram, at, value);
        self.pass();
        if is_port(to) {
            Did::PortWrite { at: to, value }
        } else {
            Did::Plain
        }
    }

    pub(crate) fn store_right(&mut self, ram: &mut Ram, s: Reg, t: Reg, imm: u16) -> Did
        requires { (s.0 < 32) × (t.0 < 32) }
        ensures { Does (core_of self.old ram.old) (decided (core_of self.old ram.old) idle (SWR s t imm)) result (core_of self.new ram.new) }
    {
        let at = self.data_address(s, imm);
        if !self.may_use(at) {
            return Did::Stopped(Stop::UserData { pc: self.pc(), at });
        }
        let word = read_word(ram, at / 4 * 4);
        write_word(ram, at / 4 * 4, stored_right(at % 4, self.reg(t), word));
        self.pass();
        Did::Plain
    }
}
