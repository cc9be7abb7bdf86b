//! The operands of an instruction.
ghost use Rattle.std.specs.Prelude.{◌≡◌, ◌≤◌, ◌<◌, ◌^◌, IsTrue};
ghost use Rattle.psx_ins.specs.Words.{fits_fields};
ghost use Rattle.psx_dis.specs.Operands.{one, two, three, alone, one_and, two_and, two_signed, place, jump, one_to, two_to, operands};

use crate::target::{branch_target, jump_target};
use psx_ins::ins::Ins;
use psx_ins::reg::Reg;

/// An operand as it is printed.
#[derive(Clone, Copy)]
pub enum Operand {
    /// A general register: `r4`.
    Register(Reg),
    /// A number without sign, in decimal.
    Number(u32),
    /// 16 bits as a signed number, in decimal.
    Signed(u16),
    /// 16 bits as a signed number of bytes, and the register that they are counted from: `-4(r29)`.
    Place(u16, Reg),
    /// An address: `0x80010000`.
    Target(u32),
}

/// The operands of an instruction in the order in which they are printed. RFE alone has none.
#[derive(Clone, Copy)]
pub enum Operands {
    Nothing,
    One(Operand),
    Two(Operand, Operand),
    Three(Operand, Operand, Operand),
}

// A register.
fn one(s: Reg) -> Option<Operands>
    ensures { result ≡ one s }
{
    Some(Operands::One(Operand::Register(s)))
}

// Two registers.
fn two(a: Reg, b: Reg) -> Option<Operands>
    ensures { result ≡ two a b }
{
    Some(Operands::Two(Operand::Register(a), Operand::Register(b)))
}

// Three registers.
fn three(a: Reg, b: Reg, c: Reg) -> Option<Operands>
    ensures { result ≡ three a b c }
{
    Some(Operands::Three(
        Operand::Register(a),
        Operand::Register(b),
        Operand::Register(c),
    ))
}

// A number.
fn alone(n: u32) -> Option<Operands>
    ensures { result ≡ alone n }
{
    Some(Operands::One(Operand::Number(n)))
}

// A register and a number.
fn one_and(a: Reg, n: u32) -> Option<Operands>
    ensures { result ≡ one_and a n }
{
    Some(Operands::Two(Operand::Register(a), Operand::Number(n)))
}

// Two registers and a number.
fn two_and(a: Reg, b: Reg, n: u32) -> Option<Operands>
    ensures { result ≡ two_and a b n }
{
    Some(Operands::Three(
        Operand::Register(a),
        Operand::Register(b),
        Operand::Number(n),
    ))
}

// Two registers and a signed number.
fn two_signed(a: Reg, b: Reg, imm: u16) -> Option<Operands>
    ensures { result ≡ two_signed a b imm }
{
    Some(Operands::Three(
        Operand::Register(a),
        Operand::Register(b),
        Operand::Signed(imm),
    ))
}

// A register and a place in memory.
fn place(t: Reg, imm: u16, s: Reg) -> Option<Operands>
    ensures { result ≡ place t imm s }
{
    Some(Operands::Two(Operand::Register(t), Operand::Place(imm, s)))
}

// A jump's target.
fn jump(target: u32) -> Option<Operands>
    ensures { result ≡ jump target }
{
    Some(Operands::One(Operand::Target(target)))
}

// A register and a branch's target.
fn one_to(s: Reg, target: Option<u32>) -> Option<Operands>
    ensures { result ≡ one_to s target }
{
    match target {
        Some(at) => Some(Operands::Two(Operand::Register(s), Operand::Target(at))),
        None => None,
    }
}

// Two registers and a branch's target.
fn two_to(s: Reg, t: Reg, target: Option<u32>) -> Option<Operands>
    ensures { result ≡ two_to s t target }
{
    match target {
        Some(at) => Some(Operands::Three(
            Operand::Register(s),
            Operand::Register(t),
            Operand::Target(at),
        )),
        None => None,
    }
}

/// The operands of an instruction that fits a word and whose delay slot has this address, at most 2^32.
/// None for a branch whose target passes an end of the 32 bits.
pub fn operands_of(slot: u64, ins: Ins) -> Option<Operands>
    requires slot { slot ≤ 2 ^ 32 }
    requires fits { IsTrue (fits_fields ins) }
    ensures { result ≡ operands slot ins }
{
    match ins {
        Ins::SLL { t, d, n } => two_and(d, t, n),
        Ins::SRL { t, d, n } => two_and(d, t, n),
        Ins::SRA { t, d, n } => two_and(d, t, n),
        Ins::SLLV { s, t, d } => three(d, t, s),
        Ins::SRLV { s, t, d } => three(d, t, s),
        Ins::SRAV { s, t, d } => three(d, t, s),
        Ins::JR { s } => one(s),
        Ins::JALR { s, d } => two(d, s),
        Ins::SYSCALL { code } => alone(code),
        Ins::BREAK { code } => alone(code),
        Ins::MFHI { d } => one(d),
        Ins::MTHI { s } => one(s),
        Ins::MFLO { d } => one(d),
        Ins::MTLO { s } => one(s),
        Ins::MULT { s, t } => two(s, t),
        Ins::MULTU { s, t } => two(s, t),
        Ins::DIV { s, t } => two(s, t),
        Ins::DIVU { s, t } => two(s, t),
        Ins::ADD { s, t, d } => three(d, s, t),
        Ins::ADDU { s, t, d } => three(d, s, t),
        Ins::SUB { s, t, d } => three(d, s, t),
        Ins::SUBU { s, t, d } => three(d, s, t),
        Ins::AND { s, t, d } => three(d, s, t),
        Ins::OR { s, t, d } => three(d, s, t),
        Ins::XOR { s, t, d } => three(d, s, t),
        Ins::NOR { s, t, d } => three(d, s, t),
        Ins::SLT { s, t, d } => three(d, s, t),
        Ins::SLTU { s, t, d } => three(d, s, t),
        Ins::BLTZ { s, imm } => one_to(s, branch_target(slot, imm)),
        Ins::BGEZ { s, imm } => one_to(s, branch_target(slot, imm)),
        Ins::BLTZAL { s, imm } => one_to(s, branch_target(slot, imm)),
        Ins::BGEZAL { s, imm } => one_to(s, branch_target(slot, imm)),
        Ins::J { target } => jump(jump_target(slot, target)),
        Ins::JAL { target } => jump(jump_target(slot, target)),
        Ins::BEQ { s, t, imm } => two_to(s, t, branch_target(slot, imm)),
        Ins::BNE { s, t, imm } => two_to(s, t, branch_target(slot, imm)),
        Ins::BLEZ { s, imm } => one_to(s, branch_target(slot, imm)),
        Ins::BGTZ { s, imm } => one_to(s, branch_target(slot, imm)),
        Ins::ADDI { s, t, imm } => two_signed(t, s, imm),
        Ins::ADDIU { s, t, imm } => two_signed(t, s, imm),
        Ins::SLTI { s, t, imm } => two_signed(t, s, imm),
        Ins::SLTIU { s, t, imm } => two_signed(t, s, imm),
        Ins::ANDI { s, t, imm } => two_and(t, s, imm as u32),
        Ins::ORI { s, t, imm } => two_and(t, s, imm as u32),
        Ins::XORI { s, t, imm } => two_and(t, s, imm as u32),
        Ins::LUI { t, imm } => one_and(t, imm as u32),
        Ins::LB { s, t, imm } => place(t, imm, s),
        Ins::LH { s, t, imm } => place(t, imm, s),
        Ins::LWL { s, t, imm } => place(t, imm, s),
        Ins::LW { s, t, imm } => place(t, imm, s),
        Ins::LBU { s, t, imm } => place(t, imm, s),
        Ins::LHU { s, t, imm } => place(t, imm, s),
        Ins::LWR { s, t, imm } => place(t, imm, s),
        Ins::SB { s, t, imm } => place(t, imm, s),
        Ins::SH { s, t, imm } => place(t, imm, s),
        Ins::SWL { s, t, imm } => place(t, imm, s),
        Ins::SW { s, t, imm } => place(t, imm, s),
        Ins::SWR { s, t, imm } => place(t, imm, s),
        Ins::MFC0 { t, d } => one_and(t, d.0),
        Ins::MTC0 { t, d } => one_and(t, d.0),
        Ins::RFE => Some(Operands::Nothing),
    }
}
