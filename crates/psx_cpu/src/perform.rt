//! Each instruction at pc, under the guard: the table of instructions.
ghost use Rattle.std.specs.Prelude.{IsTrue};
ghost use Rattle.psx_ins.specs.Words.{fits_fields};
ghost use Rattle.psx_cpu.specs.Views.{core_of};
ghost use Rattle.psx_cpu.specs.Step.{decided, Does};

use crate::arithmetic as number;
use crate::cpu::Cpu;
use crate::step::{BusAnswer, Did};
use psx_ins::ins::Ins;
use psx_ram::Ram;

impl Cpu {
    /// Carries out an instruction, by the order of the instruction table.
    pub(crate) fn perform(&mut self, ram: &mut Ram, bus: BusAnswer, ins: Ins) -> Did
        requires { IsTrue (fits_fields ins) }
        ensures { Does (core_of self.old ram.old) (decided (core_of self.old ram.old) bus ins) result (core_of self.new ram.new) }
    {
        match ins {
            Ins::SLL { t, d, n } => self.gives(d, number::shifted_left(self.reg(t), n)),
            Ins::SRL { t, d, n } => self.gives(d, number::shifted_right(self.reg(t), n)),
            Ins::SRA { t, d, n } => self.gives(d, number::shifted_signed(self.reg(t), n)),
            Ins::SLLV { s, t, d } => self.gives(
                d,
                number::shifted_left(self.reg(t), self.reg(s) % 32),
            ),
            Ins::SRLV { s, t, d } => self.gives(
                d,
                number::shifted_right(self.reg(t), self.reg(s) % 32),
            ),
            Ins::SRAV { s, t, d } => self.gives(
                d,
                number::shifted_signed(self.reg(t), self.reg(s) % 32),
            ),
            Ins::JR { s } => self.goes_to(self.reg(s)),
            Ins::JALR { s, d } => self.calls(d.0, self.reg(s)),
            Ins::SYSCALL { code: _ } => self.raise(8, None),
            Ins::BREAK { code: _ } => self.raise(9, None),
            Ins::MFHI { d } => self.gives(d, self.hi()),
            Ins::MTHI { s } => self.gives_hi_lo(self.reg(s), self.lo()),
            Ins::MFLO { d } => self.gives(d, self.lo()),
            Ins::MTLO { s } => self.gives_hi_lo(self.hi(), self.reg(s)),
            Ins::MULT { s, t } => self.multiply_signed(s, t),
            Ins::MULTU { s, t } => self.multiply(s, t),
            Ins::DIV { s, t } => self.divide_signed(s, t),
            Ins::DIVU { s, t } => self.divide(s, t),
            Ins::ADD { s, t, d } => self.add(s, t, d),
            Ins::ADDU { s, t, d } => self.gives(d, self.reg(s).wrapping_add(self.reg(t))),
            Ins::SUB { s, t, d } => self.subtract(s, t, d),
            Ins::SUBU { s, t, d } => self.gives(d, self.reg(s).wrapping_sub(self.reg(t))),
            Ins::AND { s, t, d } => self.gives(d, self.reg(s) & self.reg(t)),
            Ins::OR { s, t, d } => self.gives(d, self.reg(s) | self.reg(t)),
            Ins::XOR { s, t, d } => self.gives(d, self.reg(s) ^ self.reg(t)),
            Ins::NOR { s, t, d } => self.gives(d, number::nor(self.reg(s), self.reg(t))),
            Ins::SLT { s, t, d } => self.gives(d, number::is_less_signed(self.reg(s), self.reg(t))),
            Ins::SLTU { s, t, d } => self.gives(d, number::is_less(self.reg(s), self.reg(t))),
            Ins::BLTZ { s, imm } => self.branches(number::is_negative(self.reg(s)), imm),
            Ins::BGEZ { s, imm } => self.branches(!number::is_negative(self.reg(s)), imm),
            Ins::BLTZAL { s, imm } => self.branches_and_links(
                number::is_negative(self.reg(s)),
                imm,
            ),
            Ins::BGEZAL { s, imm } => self.branches_and_links(
                !number::is_negative(self.reg(s)),
                imm,
            ),
            Ins::J { target } => self.goes_to(self.jump_target(target)),
            Ins::JAL { target } => self.calls(31, self.jump_target(target)),
            Ins::BEQ { s, t, imm } => self.branches(self.reg(s) == self.reg(t), imm),
            Ins::BNE { s, t, imm } => self.branches(self.reg(s) != self.reg(t), imm),
            Ins::BLEZ { s, imm } => self.branches(number::is_not_above(self.reg(s)), imm),
            Ins::BGTZ { s, imm } => self.branches(!number::is_not_above(self.reg(s)), imm),
            Ins::ADDI { s, t, imm } => self.add_immediate(s, t, imm),
            Ins::ADDIU { s, t, imm } => self.gives(
                t,
                self.reg(s).wrapping_add(number::sign_extended(imm)),
            ),
            Ins::SLTI { s, t, imm } => self.gives(
                t,
                number::is_less_signed(self.reg(s), number::sign_extended(imm)),
            ),
            Ins::SLTIU { s, t, imm } => self.gives(
                t,
                number::is_less(self.reg(s), number::sign_extended(imm)),
            ),
            Ins::ANDI { s, t, imm } => self.gives(t, self.reg(s) & imm as u32),
            Ins::ORI { s, t, imm } => self.gives(t, self.reg(s) | imm as u32),
            Ins::XORI { s, t, imm } => self.gives(t, self.reg(s) ^ imm as u32),
            Ins::LUI { t, imm } => self.gives(t, imm as u32 * 0x1_0000),
            Ins::LB { s, t, imm } => self.load_byte_signed(ram, s, t, imm),
            Ins::LH { s, t, imm } => self.load_half_signed(ram, s, t, imm),
            Ins::LWL { s, t, imm } => self.load_left(ram, s, t, imm),
            Ins::LW { s, t, imm } => self.load_word(ram, bus, s, t, imm),
            Ins::LBU { s, t, imm } => self.load_byte(ram, s, t, imm),
            Ins::LHU { s, t, imm } => self.load_half(ram, s, t, imm),
            Ins::LWR { s, t, imm } => self.load_right(ram, s, t, imm),
            Ins::SB { s, t, imm } => self.store_byte(ram, s, t, imm),
            Ins::SH { s, t, imm } => self.store_half(ram, s, t, imm),
            Ins::SWL { s, t, imm } => self.store_left(ram, s, t, imm),
            Ins::SW { s, t, imm } => self.store_word(ram, s, t, imm),
            Ins::SWR { s, t, imm } => self.store_right(ram, s, t, imm),
            Ins::MFC0 { t, d } => self.move_from_cop0(bus, t, d),
            Ins::MTC0 { t, d } => self.move_to_cop0(t, d),
            Ins::RFE => self.returns(),
        }
    }
}
