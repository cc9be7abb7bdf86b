// The layouts of an instruction word, and the layout of each instruction.
ghost use Rattle.std.specs.Prelude.{◌≡◌, IsTrue};
ghost use Rattle.psx_ins.specs.Forms.{form_word, form_fits};
ghost use Rattle.psx_ins.specs.Words.{form};

use crate::ins::Ins;
use crate::reg::Reg;

/// The fields of an instruction word, from the high bits down, in one of the layouts of the R3000A
/// (manual, CPU instruction formats). A field that an instruction has no use for is 0.
#[derive(Clone, Copy)]
pub enum Form {
    /// op, s, t, d, n and funct, of 6, 5, 5, 5, 5 and 6 bits.
    Register(u32, Reg, Reg, Reg, u32, u32),
    /// op, s, t and imm, of 6, 5, 5 and 16 bits.
    Immediate(u32, Reg, Reg, u16),
    /// op and target, of 6 and 26 bits.
    Jump(u32, u32),
    /// The code and the funct of an instruction of op 00h, of 20 and 6 bits.
    Code(u32, u32),
}

/// The fields of the instruction's word, whether or not they fit it.
pub fn form_of(ins: Ins) -> Form
    ensures { result ≡ form ins }
{
    match ins {
        Ins::SLL { t, d, n } => Form::Register(0x00, Reg(0), t, d, n, 0x00),
        Ins::SRL { t, d, n } => Form::Register(0x00, Reg(0), t, d, n, 0x02),
        Ins::SRA { t, d, n } => Form::Register(0x00, Reg(0), t, d, n, 0x03),
        Ins::SLLV { s, t, d } => Form::Register(0x00, s, t, d, 0, 0x04),
        Ins::SRLV { s, t, d } => Form::Register(0x00, s, t, d, 0, 0x06),
        Ins::SRAV { s, t, d } => Form::Register(0x00, s, t, d, 0, 0x07),
        Ins::JR { s } => Form::Register(0x00, s, Reg(0), Reg(0), 0, 0x08),
        Ins::JALR { s, d } => Form::Register(0x00, s, Reg(0), d, 0, 0x09),
        Ins::SYSCALL { code } => Form::Code(code, 0x0C),
        Ins::BREAK { code } => Form::Code(code, 0x0D),
        Ins::MFHI { d } => Form::Register(0x00, Reg(0), Reg(0), d, 0, 0x10),
        Ins::MTHI { s } => Form::Register(0x00, s, Reg(0), Reg(0), 0, 0x11),
        Ins::MFLO { d } => Form::Register(0x00, Reg(0), Reg(0), d, 0, 0x12),
        Ins::MTLO { s } => Form::Register(0x00, s, Reg(0), Reg(0), 0, 0x13),
        Ins::MULT { s, t } => Form::Register(0x00, s, t, Reg(0), 0, 0x18),
        Ins::MULTU { s, t } => Form::Register(0x00, s, t, Reg(0), 0, 0x19),
        Ins::DIV { s, t } => Form::Register(0x00, s, t, Reg(0), 0, 0x1A),
        Ins::DIVU { s, t } => Form::Register(0x00, s, t, Reg(0), 0, 0x1B),
        Ins::ADD { s, t, d } => Form::Register(0x00, s, t, d, 0, 0x20),
        Ins::ADDU { s, t, d } => Form::Register(0x00, s, t, d, 0, 0x21),
        Ins::SUB { s, t, d } => Form::Register(0x00, s, t, d, 0, 0x22),
        Ins::SUBU { s, t, d } => Form::Register(0x00, s, t, d, 0, 0x23),
        Ins::AND { s, t, d } => Form::Register(0x00, s, t, d, 0, 0x24),
        Ins::OR { s, t, d } => Form::Register(0x00, s, t, d, 0, 0x25),
        Ins::XOR { s, t, d } => Form::Register(0x00, s, t, d, 0, 0x26),
        Ins::NOR { s, t, d } => Form::Register(0x00, s, t, d, 0, 0x27),
        Ins::SLT { s, t, d } => Form::Register(0x00, s, t, d, 0, 0x2A),
        Ins::SLTU { s, t, d } => Form::Register(0x00, s, t, d, 0, 0x2B),
        Ins::BLTZ { s, imm } => Form::Immediate(0x01, s, Reg(0), imm),
        Ins::BGEZ { s, imm } => Form::Immediate(0x01, s, Reg(0x01), imm),
        Ins::BLTZAL { s, imm } => Form::Immediate(0x01, s, Reg(0x10), imm),
        Ins::BGEZAL { s, imm } => Form::Immediate(0x01, s, Reg(0x11), imm),
        Ins::J { target } => Form::Jump(0x02, target),
        Ins::JAL { target } => Form::Jump(0x03, target),
        Ins::BEQ { s, t, imm } => Form::Immediate(0x04, s, t, imm),
        Ins::BNE { s, t, imm } => Form::Immediate(0x05, s, t, imm),
        Ins::BLEZ { s, imm } => Form::Immediate(0x06, s, Reg(0), imm),
        Ins::BGTZ { s, imm } => Form::Immediate(0x07, s, Reg(0), imm),
        Ins::ADDI { s, t, imm } => Form::Immediate(0x08, s, t, imm),
        Ins::ADDIU { s, t, imm } => Form::Immediate(0x09, s, t, imm),
        Ins::SLTI { s, t, imm } => Form::Immediate(0x0A, s, t, imm),
        Ins::SLTIU { s, t, imm } => Form::Immediate(0x0B, s, t, imm),
        Ins::ANDI { s, t, imm } => Form::Immediate(0x0C, s, t, imm),
        Ins::ORI { s, t, imm } => Form::Immediate(0x0D, s, t, imm),
        Ins::XORI { s, t, imm } => Form::Immediate(0x0E, s, t, imm),
        Ins::LUI { t, imm } => Form::Immediate(0x0F, Reg(0), t, imm),
        Ins::LB { s, t, imm } => Form::Immediate(0x20, s, t, imm),
        Ins::LH { s, t, imm } => Form::Immediate(0x21, s, t, imm),
        Ins::LWL { s, t, imm } => Form::Immediate(0x22, s, t, imm),
        Ins::LW { s, t, imm } => Form::Immediate(0x23, s, t, imm),
        Ins::LBU { s, t, imm } => Form::Immediate(0x24, s, t, imm),
        Ins::LHU { s, t, imm } => Form::Immediate(0x25, s, t, imm),
        Ins::LWR { s, t, imm } => Form::Immediate(0x26, s, t, imm),
        Ins::SB { s, t, imm } => Form::Immediate(0x28, s, t, imm),
        Ins::SH { s, t, imm } => Form::Immediate(0x29, s, t, imm),
        Ins::SWL { s, t, imm } => Form::Immediate(0x2A, s, t, imm),
        Ins::SW { s, t, imm } => Form::Immediate(0x2B, s, t, imm),
        Ins::SWR { s, t, imm } => Form::Immediate(0x2E, s, t, imm),
        Ins::MFC0 { t, d } => Form::Register(0x10, Reg(0), t, d, 0, 0x00),
        Ins::MTC0 { t, d } => Form::Register(0x10, Reg(0x04), t, d, 0, 0x00),
        Ins::RFE => Form::Register(0x10, Reg(0x10), Reg(0), Reg(0), 0, 0x10),
    }
}

/// Whether every number is below the limit of its field.
pub fn is_in_range(fields: Form) -> bool
    ensures { result ≡ form_fits fields }
{
    match fields {
        Form::Register(op, s, t, d, n, funct) => {
            op < 64 && funct < 64 && s.0 < 32 && t.0 < 32 && d.0 < 32 && n < 32
        }
        Form::Immediate(op, s, t, _imm) => op < 64 && s.0 < 32 && t.0 < 32,
        Form::Jump(op, target) => op < 64 && target < 0x400_0000,
        Form::Code(code, funct) => funct < 64 && code < 0x10_0000,
    }
}

/// The word of the fields.
pub fn word_of(fields: Form) -> u32
    requires { IsTrue (form_fits fields) }
    ensures { result ≡ form_word fields }
{
    match fields {
        Form::Register(op, s, t, d, n, funct) => {
            op * 0x400_0000 + s.0 * 0x20_0000 + t.0 * 0x1_0000 + d.0 * 0x800 + n * 0x40 + funct
        }
        Form::Immediate(op, s, t, imm) => {
            op * 0x400_0000 + s.0 * 0x20_0000 + t.0 * 0x1_0000 + imm as u32
        }
        Form::Jump(op, target) => op * 0x400_0000 + target,
        Form::Code(code, funct) => code * 0x40 + funct,
    }
}
