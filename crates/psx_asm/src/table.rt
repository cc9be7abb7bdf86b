//! The instructions by their mnemonics, a table for each list of operands (R3000A manual, instruction set).
ghost use Rattle.std.specs.Prelude.{◌≡◌, ◌<◌, ◌^◌, bytes_eq, IsTrue, IfSome};
ghost use Rattle.psx_ins.specs.Words.{fits_fields};
ghost use Rattle.psx_asm.specs.Instructions.{bare, one, two, three, shift, signed, unsigned, upper, place, coprocessor, code, branch_always, branch_one, branch_two, jump, branch_to, jump_to};

use psx_ins::ins::Ins;
use psx_ins::reg::Reg;

/// Register 0.
pub(crate) const R0: Reg = Reg(0);

/// Whether a name is this text.
pub(crate) fn is(word: &[u8], text: &str) -> bool
    ensures { result ≡ bytes_eq word.now text.now }
{
    word == text.as_bytes()
}

/// The instruction of nothing.
pub(crate) fn bare(word: &[u8]) -> Option<Ins>
    ensures value { result ≡ bare word.now }
    ensures fits { IfSome result (λ i. IsTrue (fits_fields i)) }
{
    match word {
        b"nop" => Some(Ins::SLL { t: R0, d: R0, n: 0 }),
        b"rfe" => Some(Ins::RFE),
        _ => None,
    }
}

/// The instruction of a register.
pub(crate) fn one(word: &[u8], a: Reg) -> Option<Ins>
    requires { a.0 < 32 }
    ensures value { result ≡ one word.now a }
    ensures fits { IfSome result (λ i. IsTrue (fits_fields i)) }
{
    match word {
        b"jr" => Some(Ins::JR { s: a }),
        b"mfhi" => Some(Ins::MFHI { d: a }),
        b"mthi" => Some(Ins::MTHI { s: a }),
        b"mflo" => Some(Ins::MFLO { d: a }),
        b"mtlo" => Some(Ins::MTLO { s: a }),
        _ => None,
    }
}

/// The instruction of two registers.
pub(crate) fn two(word: &[u8], a: Reg, b: Reg) -> Option<Ins>
    requires { (a.0 < 32) × (b.0 < 32) }
    ensures value { result ≡ two word.now a b }
    ensures fits { IfSome result (λ i. IsTrue (fits_fields i)) }
{
    match word {
        b"move" => Some(Ins::ADDU { s: b, t: R0, d: a }),
        b"jalr" => Some(Ins::JALR { s: b, d: a }),
        b"mult" => Some(Ins::MULT { s: a, t: b }),
        b"multu" => Some(Ins::MULTU { s: a, t: b }),
        b"div" => Some(Ins::DIV { s: a, t: b }),
        b"divu" => Some(Ins::DIVU { s: a, t: b }),
        _ => None,
    }
}

/// The instruction of three registers.
pub(crate) fn three(word: &[u8], a: Reg, b: Reg, c: Reg) -> Option<Ins>
    requires { (a.0 < 32) × (b.0 < 32) × (c.0 < 32) }
    ensures value { result ≡ three word.now a b c }
    ensures fits { IfSome result (λ i. IsTrue (fits_fields i)) }
{
    match word {
        b"add" => Some(Ins::ADD { s: b, t: c, d: a }),
        b"addu" => Some(Ins::ADDU { s: b, t: c, d: a }),
        b"sub" => Some(Ins::SUB { s: b, t: c, d: a }),
        b"subu" => Some(Ins::SUBU { s: b, t: c, d: a }),
        b"and" => Some(Ins::AND { s: b, t: c, d: a }),
        b"or" => Some(Ins::OR { s: b, t: c, d: a }),
        b"xor" => Some(Ins::XOR { s: b, t: c, d: a }),
        b"nor" => Some(Ins::NOR { s: b, t: c, d: a }),
        b"slt" => Some(Ins::SLT { s: b, t: c, d: a }),
        b"sltu" => Some(Ins::SLTU { s: b, t: c, d: a }),
        b"sllv" => Some(Ins::SLLV { s: c, t: b, d: a }),
        b"srlv" => Some(Ins::SRLV { s: c, t: b, d: a }),
        b"srav" => Some(Ins::SRAV { s: c, t: b, d: a }),
        _ => None,
    }
}

/// The instruction of two registers and a shift.
pub(crate) fn shift(word: &[u8], a: Reg, b: Reg, n: u32) -> Option<Ins>
    requires { (a.0 < 32) × (b.0 < 32) × (n < 32) }
    ensures value { result ≡ shift word.now a b n }
    ensures fits { IfSome result (λ i. IsTrue (fits_fields i)) }
{
    match word {
        b"sll" => Some(Ins::SLL { t: b, d: a, n }),
        b"srl" => Some(Ins::SRL { t: b, d: a, n }),
        b"sra" => Some(Ins::SRA { t: b, d: a, n }),
        _ => None,
    }
}

/// The instruction of two registers and 16 bits with a sign.
pub(crate) fn signed(word: &[u8], a: Reg, b: Reg, imm: u16) -> Option<Ins>
    requires { (a.0 < 32) × (b.0 < 32) }
    ensures value { result ≡ signed word.now a b imm }
    ensures fits { IfSome result (λ i. IsTrue (fits_fields i)) }
{
    match word {
        b"addiu" => Some(Ins::ADDIU { s: b, t: a, imm }),
        b"addi" => Some(Ins::ADDI { s: b, t: a, imm }),
        b"slti" => Some(Ins::SLTI { s: b, t: a, imm }),
        b"sltiu" => Some(Ins::SLTIU { s: b, t: a, imm }),
        _ => None,
    }
}

/// The instruction of two registers and 16 bits without a sign.
pub(crate) fn unsigned(word: &[u8], a: Reg, b: Reg, imm: u16) -> Option<Ins>
    requires { (a.0 < 32) × (b.0 < 32) }
    ensures value { result ≡ unsigned word.now a b imm }
    ensures fits { IfSome result (λ i. IsTrue (fits_fields i)) }
{
    match word {
        b"andi" => Some(Ins::ANDI { s: b, t: a, imm }),
        b"ori" => Some(Ins::ORI { s: b, t: a, imm }),
        b"xori" => Some(Ins::XORI { s: b, t: a, imm }),
        _ => None,
    }
}

/// The instruction of a register and 16 bits without a sign.
pub(crate) fn upper(word: &[u8], a: Reg, imm: u16) -> Option<Ins>
    requires { a.0 < 32 }
    ensures value { result ≡ upper word.now a imm }
    ensures fits { IfSome result (λ i. IsTrue (fits_fields i)) }
{
    match word {
        b"lui" => Some(Ins::LUI { t: a, imm }),
        _ => None,
    }
}

/// The instruction of a register and a place in memory.
pub(crate) fn place(word: &[u8], a: Reg, imm: u16, s: Reg) -> Option<Ins>
    requires { (a.0 < 32) × (s.0 < 32) }
    ensures value { result ≡ place word.now a imm s }
    ensures fits { IfSome result (λ i. IsTrue (fits_fields i)) }
{
    match word {
        b"lw" => Some(Ins::LW { s, t: a, imm }),
        b"sw" => Some(Ins::SW { s, t: a, imm }),
        b"lb" => Some(Ins::LB { s, t: a, imm }),
        b"lbu" => Some(Ins::LBU { s, t: a, imm }),
        b"lh" => Some(Ins::LH { s, t: a, imm }),
        b"lhu" => Some(Ins::LHU { s, t: a, imm }),
        b"lwl" => Some(Ins::LWL { s, t: a, imm }),
        b"lwr" => Some(Ins::LWR { s, t: a, imm }),
        b"sb" => Some(Ins::SB { s, t: a, imm }),
        b"sh" => Some(Ins::SH { s, t: a, imm }),
        b"swl" => Some(Ins::SWL { s, t: a, imm }),
        b"swr" => Some(Ins::SWR { s, t: a, imm }),
        _ => None,
    }
}

/// The instruction of a register and a register of coprocessor 0.
pub(crate) fn coprocessor(word: &[u8], a: Reg, d: Reg) -> Option<Ins>
    requires { (a.0 < 32) × (d.0 < 32) }
    ensures value { result ≡ coprocessor word.now a d }
    ensures fits { IfSome result (λ i. IsTrue (fits_fields i)) }
{
    match word {
        b"mfc0" => Some(Ins::MFC0 { t: a, d }),
        b"mtc0" => Some(Ins::MTC0 { t: a, d }),
        _ => None,
    }
}

/// The instruction of 20 bits.
pub(crate) fn code(word: &[u8], n: u32) -> Option<Ins>
    requires { n < 2 ^ 20 }
    ensures value { result ≡ code word.now n }
    ensures fits { IfSome result (λ i. IsTrue (fits_fields i)) }
{
    if is(word, "syscall") {
        return Some(Ins::SYSCALL { code: n });
    }
    if is(word, "break") {
        return Some(Ins::BREAK { code: n });
    }
    None
}

/// The instruction of a branch.
pub(crate) fn branch_always(word: &[u8]) -> Option<Ins>
    ensures value { result ≡ branch_always word.now }
    ensures fits { IfSome result (λ i. IsTrue (fits_fields i)) }
{
    match word {
        b"b" => Some(Ins::BEQ {
            s: R0,
            t: R0,
            imm: 0,
        }),
        _ => None,
    }
}

/// The instruction of a register and a branch.
pub(crate) fn branch_one(word: &[u8], a: Reg) -> Option<Ins>
    requires { a.0 < 32 }
    ensures value { result ≡ branch_one word.now a }
    ensures fits { IfSome result (λ i. IsTrue (fits_fields i)) }
{
    if is(word, "blez") {
        return Some(Ins::BLEZ { s: a, imm: 0 });
    }
    if is(word, "bgtz") {
        return Some(Ins::BGTZ { s: a, imm: 0 });
    }
    if is(word, "bltz") {
        return Some(Ins::BLTZ { s: a, imm: 0 });
    }
    if is(word, "bgez") {
        return Some(Ins::BGEZ { s: a, imm: 0 });
    }
    if is(word, "bltzal") {
        return Some(Ins::BLTZAL { s: a, imm: 0 });
    }
    if is(word, "bgezal") {
        return Some(Ins::BGEZAL { s: a, imm: 0 });
    }
    None
}

/// The instruction of two registers and a branch.
pub(crate) fn branch_two(word: &[u8], a: Reg, b: Reg) -> Option<Ins>
    requires { (a.0 < 32) × (b.0 < 32) }
    ensures value { result ≡ branch_two word.now a b }
    ensures fits { IfSome result (λ i. IsTrue (fits_fields i)) }
{
    match word {
        b"beq" => Some(Ins::BEQ { s: a, t: b, imm: 0 }),
        b"bne" => Some(Ins::BNE { s: a, t: b, imm: 0 }),
        _ => None,
    }
}

/// The instruction of a jump.
pub(crate) fn jump(word: &[u8]) -> Option<Ins>
    ensures value { result ≡ jump word.now }
    ensures fits { IfSome result (λ i. IsTrue (fits_fields i)) }
{
    match word {
        b"j" => Some(Ins::J { target: 0 }),
        b"jal" => Some(Ins::JAL { target: 0 }),
        _ => None,
    }
}

/// A branch with other bits: how far it goes.
pub(crate) fn branch_to(ins: Ins, imm: u16) -> Ins
    requires { IsTrue (fits_fields ins) }
    ensures value { result ≡ branch_to ins imm }
    ensures fits { IsTrue (fits_fields result) }
{
    match ins {
        Ins::BEQ { s, t, .. } => Ins::BEQ { s, t, imm },
        Ins::BNE { s, t, .. } => Ins::BNE { s, t, imm },
        Ins::BLEZ { s, .. } => Ins::BLEZ { s, imm },
        Ins::BGTZ { s, .. } => Ins::BGTZ { s, imm },
        Ins::BLTZ { s, .. } => Ins::BLTZ { s, imm },
        Ins::BGEZ { s, .. } => Ins::BGEZ { s, imm },
        Ins::BLTZAL { s, .. } => Ins::BLTZAL { s, imm },
        Ins::BGEZAL { s, .. } => Ins::BGEZAL { s, imm },
        _ => ins,
    }
}

/// A jump with other bits: where it goes.
pub(crate) fn jump_to(ins: Ins, target: u32) -> Ins
    requires bits { target < 2 ^ 26 }
    requires fits { IsTrue (fits_fields ins) }
    ensures value { result ≡ jump_to ins target }
    ensures fits { IsTrue (fits_fields result) }
{
    match ins {
        Ins::J { .. } => Ins::J { target },
        Ins::JAL { .. } => Ins::JAL { target },
        _ => ins,
    }
}
