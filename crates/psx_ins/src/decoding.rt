// An instruction from the fields of a word, one function for each kind of op.
ghost use Rattle.std.specs.Prelude.{◌≡◌, ◌<◌, ◌^◌, IsTrue, IfSome};
ghost use Rattle.psx_ins.specs.declared.form.Form.TheVariants.{Register, Immediate};
ghost use Rattle.psx_ins.specs.Forms.{reg, form_word};
ghost use Rattle.psx_ins.specs.Words.{word, fits_fields};
ghost use Rattle.psx_ins.specs.Special.{if_zero, code_by, special_by};
ghost use Rattle.psx_ins.specs.Decoding.{sign_by, coprocessor_by, immediate_by, instruction_of};

use crate::ins::Ins;
use crate::reg::Reg;

// The instruction, if the fields that it has no use for add up to 0.
#[inline]
fn only_if_zero(rest: u32, ins: Ins) -> Option<Ins>
    ensures value { result ≡ if_zero rest ins }
    ensures found { IfSome result (λ i. (i ≡ ins) × (rest ≡ 0)) }
{
    if rest == 0 { Some(ins) } else { None }
}

// The 20 bits above funct.
#[inline]
fn code_of(s: Reg, t: Reg, d: Reg, n: u32) -> u32
    requires { (s.0 < 32) × (t.0 < 32) × (d.0 < 32) × (n < 32) }
    ensures value { result ≡ code_by s t d n }
    ensures fits { result < 2 ^ 20 }
{
    ((s.0 * 32 + t.0) * 32 + d.0) * 32 + n
}

// Op 00h.
#[inline]
fn special_instruction(s: Reg, t: Reg, d: Reg, n: u32, funct: u32) -> Option<Ins>
    requires { (s.0 < 32) × (t.0 < 32) × (d.0 < 32) × (n < 32) }
    ensures value { result ≡ special_by s t d n funct }
    ensures found { IfSome result (λ i. word i ≡ form_word (Register 0x00 s t d n funct)) }
    ensures fits { IfSome result (λ i. IsTrue (fits_fields i)) }
{
    match funct {
        0x00 => only_if_zero(s.0, Ins::SLL { t, d, n }),
        0x02 => only_if_zero(s.0, Ins::SRL { t, d, n }),
        0x03 => only_if_zero(s.0, Ins::SRA { t, d, n }),
        0x04 => only_if_zero(n, Ins::SLLV { s, t, d }),
        0x06 => only_if_zero(n, Ins::SRLV { s, t, d }),
        0x07 => only_if_zero(n, Ins::SRAV { s, t, d }),
        0x08 => only_if_zero(t.0 + d.0 + n, Ins::JR { s }),
        0x09 => only_if_zero(t.0 + n, Ins::JALR { s, d }),
        0x0C => Some(Ins::SYSCALL {
            code: code_of(s, t, d, n),
        }),
        0x0D => Some(Ins::BREAK {
            code: code_of(s, t, d, n),
        }),
        0x10 => only_if_zero(s.0 + t.0 + n, Ins::MFHI { d }),
        0x11 => only_if_zero(t.0 + d.0 + n, Ins::MTHI { s }),
        0x12 => only_if_zero(s.0 + t.0 + n, Ins::MFLO { d }),
        0x13 => only_if_zero(t.0 + d.0 + n, Ins::MTLO { s }),
        0x18 => only_if_zero(d.0 + n, Ins::MULT { s, t }),
        0x19 => only_if_zero(d.0 + n, Ins::MULTU { s, t }),
        0x1A => only_if_zero(d.0 + n, Ins::DIV { s, t }),
        0x1B => only_if_zero(d.0 + n, Ins::DIVU { s, t }),
        0x20 => only_if_zero(n, Ins::ADD { s, t, d }),
        0x21 => only_if_zero(n, Ins::ADDU { s, t, d }),
        0x22 => only_if_zero(n, Ins::SUB { s, t, d }),
        0x23 => only_if_zero(n, Ins::SUBU { s, t, d }),
        0x24 => only_if_zero(n, Ins::AND { s, t, d }),
        0x25 => only_if_zero(n, Ins::OR { s, t, d }),
        0x26 => only_if_zero(n, Ins::XOR { s, t, d }),
        0x27 => only_if_zero(n, Ins::NOR { s, t, d }),
        0x2A => only_if_zero(n, Ins::SLT { s, t, d }),
        0x2B => only_if_zero(n, Ins::SLTU { s, t, d }),
        _ => None,
    }
}

// Op 01h.
#[inline]
fn branch_on_sign(s: Reg, t: u32, imm: u16) -> Option<Ins>
    requires { s.0 < 32 }
    ensures value { result ≡ sign_by s t imm }
    ensures found { IfSome result (λ i. word i ≡ form_word (Immediate 0x01 s (reg t) imm)) }
    ensures fits { IfSome result (λ i. IsTrue (fits_fields i)) }
{
    match t {
        0x00 => Some(Ins::BLTZ { s, imm }),
        0x01 => Some(Ins::BGEZ { s, imm }),
        0x10 => Some(Ins::BLTZAL { s, imm }),
        0x11 => Some(Ins::BGEZAL { s, imm }),
        _ => None,
    }
}

// Op 10h.
#[inline]
fn coprocessor_instruction(s: u32, t: Reg, d: Reg, n: u32, funct: u32) -> Option<Ins>
    requires { (t.0 < 32) × (d.0 < 32) × (n < 32) × (funct < 64) }
    ensures value { result ≡ coprocessor_by s t d n funct }
    ensures found { IfSome result (λ i. word i ≡ form_word (Register 0x10 (reg s) t d n funct)) }
    ensures fits { IfSome result (λ i. IsTrue (fits_fields i)) }
{
    match s {
        0x00 => only_if_zero(n + funct, Ins::MFC0 { t, d }),
        0x04 => only_if_zero(n + funct, Ins::MTC0 { t, d }),
        0x10 if funct == 0x10 => only_if_zero(t.0 + d.0 + n, Ins::RFE),
        _ => None,
    }
}

// The ops from 04h on that carry 16 bits.
#[inline]
fn immediate_instruction(op: u32, s: Reg, t: Reg, imm: u16) -> Option<Ins>
    requires { (s.0 < 32) × (t.0 < 32) }
    ensures value { result ≡ immediate_by op s t imm }
    ensures found { IfSome result (λ i. word i ≡ form_word (Immediate op s t imm)) }
    ensures fits { IfSome result (λ i. IsTrue (fits_fields i)) }
{
    match op {
        0x04 => Some(Ins::BEQ { s, t, imm }),
        0x05 => Some(Ins::BNE { s, t, imm }),
        0x06 => only_if_zero(t.0, Ins::BLEZ { s, imm }),
        0x07 => only_if_zero(t.0, Ins::BGTZ { s, imm }),
        0x08 => Some(Ins::ADDI { s, t, imm }),
        0x09 => Some(Ins::ADDIU { s, t, imm }),
        0x0A => Some(Ins::SLTI { s, t, imm }),
        0x0B => Some(Ins::SLTIU { s, t, imm }),
        0x0C => Some(Ins::ANDI { s, t, imm }),
        0x0D => Some(Ins::ORI { s, t, imm }),
        0x0E => Some(Ins::XORI { s, t, imm }),
        0x0F => only_if_zero(s.0, Ins::LUI { t, imm }),
        0x20 => Some(Ins::LB { s, t, imm }),
        0x21 => Some(Ins::LH { s, t, imm }),
        0x22 => Some(Ins::LWL { s, t, imm }),
        0x23 => Some(Ins::LW { s, t, imm }),
        0x24 => Some(Ins::LBU { s, t, imm }),
        0x25 => Some(Ins::LHU { s, t, imm }),
        0x26 => Some(Ins::LWR { s, t, imm }),
        0x28 => Some(Ins::SB { s, t, imm }),
        0x29 => Some(Ins::SH { s, t, imm }),
        0x2A => Some(Ins::SWL { s, t, imm }),
        0x2B => Some(Ins::SW { s, t, imm }),
        0x2E => Some(Ins::SWR { s, t, imm }),
        _ => None,
    }
}

// The instruction that has this word, by its fields.
#[inline]
#[tactic(auto, unfolding(crate::specs::Decoding::instruction_of))]
pub fn by_fields(bits: u32) -> Option<Ins>
    ensures value { result ≡ instruction_of bits }
    ensures found { IfSome result (λ i. word i ≡ bits) }
    ensures fits { IfSome result (λ i. IsTrue (fits_fields i)) }
{
    let s = Reg(bits / 0x20_0000 % 32);
    let t = Reg(bits / 0x1_0000 % 32);
    let d = Reg(bits / 0x800 % 32);
    let n = bits / 0x40 % 32;
    let funct = bits % 0x40;
    let imm = (bits % 0x1_0000) as u16;
    let target = bits % 0x400_0000;
    match bits / 0x400_0000 {
        0x00 => special_instruction(s, t, d, n, funct),
        0x01 => branch_on_sign(s, t.0, imm),
        0x02 => Some(Ins::J { target }),
        0x03 => Some(Ins::JAL { target }),
        0x10 => coprocessor_instruction(s.0, t, d, n, funct),
        op => immediate_instruction(op, s, t, imm),
    }
}
