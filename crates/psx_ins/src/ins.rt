use crate::reg::Reg;

/// An instruction of the R3000A, in the order of its opcode table (R3000A manual, instruction set;
/// PSX-SPX, CPU opcode encoding).
///
/// `s`, `t` and `d` are the registers of the word's bits 21 to 25, 16 to 20 and 11 to 15, `n` a shift
/// below 32, `imm` the low 16 bits with no sign extended, `target` the 26 bits of a jump and `code` the
/// 20 bits that SYSCALL and BREAK carry.
#[derive(Clone, Copy, PartialEq, Eq)]
pub enum Ins {
    // Op 00h, by funct.
    SLL { t: Reg, d: Reg, n: u32 },
    SRL { t: Reg, d: Reg, n: u32 },
    SRA { t: Reg, d: Reg, n: u32 },
    SLLV { s: Reg, t: Reg, d: Reg },
    SRLV { s: Reg, t: Reg, d: Reg },
    SRAV { s: Reg, t: Reg, d: Reg },
    JR { s: Reg },
    JALR { s: Reg, d: Reg },
    SYSCALL { code: u32 },
    BREAK { code: u32 },
    MFHI { d: Reg },
    MTHI { s: Reg },
    MFLO { d: Reg },
    MTLO { s: Reg },
    MULT { s: Reg, t: Reg },
    MULTU { s: Reg, t: Reg },
    DIV { s: Reg, t: Reg },
    DIVU { s: Reg, t: Reg },
    ADD { s: Reg, t: Reg, d: Reg },
    ADDU { s: Reg, t: Reg, d: Reg },
    SUB { s: Reg, t: Reg, d: Reg },
    SUBU { s: Reg, t: Reg, d: Reg },
    AND { s: Reg, t: Reg, d: Reg },
    OR { s: Reg, t: Reg, d: Reg },
    XOR { s: Reg, t: Reg, d: Reg },
    NOR { s: Reg, t: Reg, d: Reg },
    SLT { s: Reg, t: Reg, d: Reg },
    SLTU { s: Reg, t: Reg, d: Reg },
    // Op 01h, by t.
    BLTZ { s: Reg, imm: u16 },
    BGEZ { s: Reg, imm: u16 },
    BLTZAL { s: Reg, imm: u16 },
    BGEZAL { s: Reg, imm: u16 },
    // A jump of 26 bits, a branch, an operation with an immediate.
    J { target: u32 },
    JAL { target: u32 },
    BEQ { s: Reg, t: Reg, imm: u16 },
    BNE { s: Reg, t: Reg, imm: u16 },
    BLEZ { s: Reg, imm: u16 },
    BGTZ { s: Reg, imm: u16 },
    ADDI { s: Reg, t: Reg, imm: u16 },
    ADDIU { s: Reg, t: Reg, imm: u16 },
    SLTI { s: Reg, t: Reg, imm: u16 },
    SLTIU { s: Reg, t: Reg, imm: u16 },
    ANDI { s: Reg, t: Reg, imm: u16 },
    ORI { s: Reg, t: Reg, imm: u16 },
    XORI { s: Reg, t: Reg, imm: u16 },
    LUI { t: Reg, imm: u16 },
    // A load or a store.
    LB { s: Reg, t: Reg, imm: u16 },
    LH { s: Reg, t: Reg, imm: u16 },
    LWL { s: Reg, t: Reg, imm: u16 },
    LW { s: Reg, t: Reg, imm: u16 },
    LBU { s: Reg, t: Reg, imm: u16 },
    LHU { s: Reg, t: Reg, imm: u16 },
    LWR { s: Reg, t: Reg, imm: u16 },
    SB { s: Reg, t: Reg, imm: u16 },
    SH { s: Reg, t: Reg, imm: u16 },
    SWL { s: Reg, t: Reg, imm: u16 },
    SW { s: Reg, t: Reg, imm: u16 },
    SWR { s: Reg, t: Reg, imm: u16 },
    // Coprocessor 0.
    MFC0 { t: Reg, d: Reg },
    MTC0 { t: Reg, d: Reg },
    RFE,
}
