// Loads, and the registers of an instruction.
ghost use Rattle.std.specs.Prelude.{◌≡◌, Some, None};
ghost use Rattle.psx_flow.specs.Spaced.{load_of, touches as touches_by};
ghost use Rattle.psx_flow.specs.Nodes.{number_of};

use psx_ins::ins::Ins;
use psx_ins::reg::Reg;

// The register of a load.
pub fn loaded(ins: Ins) -> Option<Reg>
    ensures { number_of result ≡ load_of ins }
{
    match ins {
        Ins::LB { t, .. }
        | Ins::LH { t, .. }
        | Ins::LWL { t, .. }
        | Ins::LW { t, .. }
        | Ins::LBU { t, .. }
        | Ins::LHU { t, .. }
        | Ins::LWR { t, .. }
        | Ins::MFC0 { t, .. } => Some(t),
        _ => None,
    }
}

// Whether an instruction reads or writes a register.
pub fn touches(ins: Ins, reg: Reg) -> bool
    ensures { result ≡ touches_by ins reg.0 }
{
    let n = reg.0;
    match ins {
        Ins::SLL { t, d, .. } | Ins::SRL { t, d, .. } | Ins::SRA { t, d, .. } => n == t.0
            || n == d.0,
        Ins::SLLV { s, t, d }
        | Ins::SRLV { s, t, d }
        | Ins::SRAV { s, t, d }
        | Ins::ADD { s, t, d }
        | Ins::ADDU { s, t, d }
        | Ins::SUB { s, t, d }
        | Ins::SUBU { s, t, d }
        | Ins::AND { s, t, d }
        | Ins::OR { s, t, d }
        | Ins::XOR { s, t, d }
        | Ins::NOR { s, t, d }
        | Ins::SLT { s, t, d }
        | Ins::SLTU { s, t, d } => n == s.0 || n == t.0 || n == d.0,
        Ins::JALR { s, d } => n == s.0 || n == d.0,
        Ins::JR { s }
        | Ins::MTHI { s }
        | Ins::MTLO { s }
        | Ins::BLTZ { s, .. }
        | Ins::BGEZ { s, .. }
        | Ins::BLEZ { s, .. }
        | Ins::BGTZ { s, .. } => n == s.0,
        Ins::MFHI { d } | Ins::MFLO { d } => n == d.0,
        Ins::MULT { s, t }
        | Ins::MULTU { s, t }
        | Ins::DIV { s, t }
        | Ins::DIVU { s, t }
        | Ins::BEQ { s, t, .. }
        | Ins::BNE { s, t, .. }
        | Ins::ADDI { s, t, .. }
        | Ins::ADDIU { s, t, .. }
        | Ins::SLTI { s, t, .. }
        | Ins::SLTIU { s, t, .. }
        | Ins::ANDI { s, t, .. }
        | Ins::ORI { s, t, .. }
        | Ins::XORI { s, t, .. }
        | Ins::LB { s, t, .. }
        | Ins::LH { s, t, .. }
        | Ins::LWL { s, t, .. }
        | Ins::LW { s, t, .. }
        | Ins::LBU { s, t, .. }
        | Ins::LHU { s, t, .. }
        | Ins::LWR { s, t, .. }
        | Ins::SB { s, t, .. }
        | Ins::SH { s, t, .. }
        | Ins::SWL { s, t, .. }
        | Ins::SW { s, t, .. }
        | Ins::SWR { s, t, .. } => n == s.0 || n == t.0,
        Ins::LUI { t, .. } | Ins::MFC0 { t, .. } | Ins::MTC0 { t, .. } => n == t.0,
        Ins::SYSCALL { .. } | Ins::BREAK { .. } | Ins::J { .. } | Ins::RFE => false,
        Ins::JAL { .. } => n == 31,
        Ins::BLTZAL { s, .. } | Ins::BGEZAL { s, .. } => n == s.0 || n == 31,
    }
}
