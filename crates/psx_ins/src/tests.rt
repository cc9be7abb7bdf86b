// Words by LLVM's assembler for MIPS I, of the registers 8, 9 and 10.
use crate::reg::Reg;
use crate::*;
use std::process::Abort;

fn goes_both_ways(rt: &impl Abort, word: u32, ins: Ins) {
    assert!(rt; fits(ins), "fits {word:08x}");
    assert_eq!(rt; encode(ins), word);
    assert!(rt; decode(word) == Some(ins), "decodes {word:08x}");
}

#[test]
fn register_words_go_both_ways(rt: HostRuntime) {
    let s = Reg(8);
    let t = Reg(9);
    let d = Reg(10);
    let n = 5;
    let code = 0x5_4321;
    let rows = [
        (0x0009_5140, Ins::SLL { t, d, n }),
        (0x0009_5142, Ins::SRL { t, d, n }),
        (0x0009_5143, Ins::SRA { t, d, n }),
        (0x0109_5004, Ins::SLLV { s, t, d }),
        (0x0109_5006, Ins::SRLV { s, t, d }),
        (0x0109_5007, Ins::SRAV { s, t, d }),
        (0x0100_0008, Ins::JR { s }),
        (0x0100_5009, Ins::JALR { s, d }),
        (0x0150_c84c, Ins::SYSCALL { code }),
        (0x0150_c84d, Ins::BREAK { code }),
        (0x0000_5010, Ins::MFHI { d }),
        (0x0100_0011, Ins::MTHI { s }),
        (0x0000_5012, Ins::MFLO { d }),
        (0x0100_0013, Ins::MTLO { s }),
        (0x0109_0018, Ins::MULT { s, t }),
        (0x0109_0019, Ins::MULTU { s, t }),
        (0x0109_001a, Ins::DIV { s, t }),
        (0x0109_001b, Ins::DIVU { s, t }),
    ];
    for (word, ins) in rows {
        goes_both_ways(&rt, word, ins);
    }
}

#[test]
fn words_of_three_registers_go_both_ways(rt: HostRuntime) {
    let s = Reg(8);
    let t = Reg(9);
    let d = Reg(10);
    let rows = [
        (0x0109_5020, Ins::ADD { s, t, d }),
        (0x0109_5021, Ins::ADDU { s, t, d }),
        (0x0109_5022, Ins::SUB { s, t, d }),
        (0x0109_5023, Ins::SUBU { s, t, d }),
        (0x0109_5024, Ins::AND { s, t, d }),
        (0x0109_5025, Ins::OR { s, t, d }),
        (0x0109_5026, Ins::XOR { s, t, d }),
        (0x0109_5027, Ins::NOR { s, t, d }),
        (0x0109_502a, Ins::SLT { s, t, d }),
        (0x0109_502b, Ins::SLTU { s, t, d }),
    ];
    for (word, ins) in rows {
        goes_both_ways(&rt, word, ins);
    }
}

#[test]
fn jumps_branches_and_immediates_go_both_ways(rt: HostRuntime) {
    let s = Reg(8);
    let t = Reg(9);
    let imm = 0xfffe;
    let target = 0x4_8d15;
    let rows = [
        (0x0500_fffe, Ins::BLTZ { s, imm }),
        (0x0501_fffe, Ins::BGEZ { s, imm }),
        (0x0510_fffe, Ins::BLTZAL { s, imm }),
        (0x0511_fffe, Ins::BGEZAL { s, imm }),
        (0x0804_8d15, Ins::J { target }),
        (0x0c04_8d15, Ins::JAL { target }),
        (0x1109_fffe, Ins::BEQ { s, t, imm }),
        (0x1509_fffe, Ins::BNE { s, t, imm }),
        (0x1900_fffe, Ins::BLEZ { s, imm }),
        (0x1d00_fffe, Ins::BGTZ { s, imm }),
        (0x2109_fffe, Ins::ADDI { s, t, imm }),
        (0x2509_fffe, Ins::ADDIU { s, t, imm }),
        (0x2909_fffe, Ins::SLTI { s, t, imm }),
        (0x2d09_fffe, Ins::SLTIU { s, t, imm }),
        (0x3109_fffe, Ins::ANDI { s, t, imm }),
        (0x3509_fffe, Ins::ORI { s, t, imm }),
        (0x3909_fffe, Ins::XORI { s, t, imm }),
        (0x3c09_fffe, Ins::LUI { t, imm }),
    ];
    for (word, ins) in rows {
        goes_both_ways(&rt, word, ins);
    }
}

#[test]
fn loads_stores_and_coprocessor_0_go_both_ways(rt: HostRuntime) {
    let s = Reg(8);
    let t = Reg(9);
    let d = Reg(10);
    let imm = 0xfffe;
    let rows = [
        (0x8109_fffe, Ins::LB { s, t, imm }),
        (0x8509_fffe, Ins::LH { s, t, imm }),
        (0x8909_fffe, Ins::LWL { s, t, imm }),
        (0x8d09_fffe, Ins::LW { s, t, imm }),
        (0x9109_fffe, Ins::LBU { s, t, imm }),
        (0x9509_fffe, Ins::LHU { s, t, imm }),
        (0x9909_fffe, Ins::LWR { s, t, imm }),
        (0xa109_fffe, Ins::SB { s, t, imm }),
        (0xa509_fffe, Ins::SH { s, t, imm }),
        (0xa909_fffe, Ins::SWL { s, t, imm }),
        (0xad09_fffe, Ins::SW { s, t, imm }),
        (0xb909_fffe, Ins::SWR { s, t, imm }),
        (0x4009_5000, Ins::MFC0 { t, d }),
        (0x4089_5000, Ins::MTC0 { t, d }),
        (0x4200_0010, Ins::RFE),
    ];
    for (word, ins) in rows {
        goes_both_ways(&rt, word, ins);
    }
}

// `t` becomes the number.
fn number(t: u32, imm: u16) -> Ins {
    let s = Reg(0);
    let t = Reg(t);
    Ins::ADDIU { s, t, imm }
}

// A call by table and number, and words that a kernel returns by.
#[test]
fn words_of_a_call_are_decoded(rt: HostRuntime) {
    let (s, t, d, n) = (Reg(10), Reg(0), Reg(0), 0);
    goes_both_ways(&rt, 0x2404_0041, number(4, 0x41));
    goes_both_ways(&rt, 0x2409_003c, number(9, 0x3c));
    goes_both_ways(&rt, 0x240a_00a0, number(10, 0xa0));
    goes_both_ways(&rt, 0x0000_0000, Ins::SLL { t, d, n });
    goes_both_ways(&rt, 0x0140_0008, Ins::JR { s });
    goes_both_ways(&rt, 0x4200_0010, Ins::RFE);
    let (t, d) = (Reg(2), Reg(12));
    goes_both_ways(&rt, 0x4002_6000, Ins::MFC0 { t, d });
    let d = Reg(31);
    goes_both_ways(&rt, 0x0140_f809, Ins::JALR { s, d });
}

// Functs and ops of no instruction, one unused bit set in each instruction that has one, and the
// coprocessors 1 to 3.
#[test]
fn other_words_are_no_instruction(rt: HostRuntime) {
    let words = [
        0x00000048, 0x0000003f, 0x00000001, 0x04020000, 0x50000000, 0x9c000000, 0xffffffff,
        0x00295140, 0x00295142, 0x00295143, 0x01095044, 0x01095046, 0x01095047, 0x01010008,
        0x01015009, 0x00205010, 0x01010011, 0x00205012, 0x01010013, 0x01090818, 0x01090819,
        0x0109081a, 0x0109081b, 0x01095060, 0x01095061, 0x01095062, 0x01095063, 0x01095064,
        0x01095065, 0x01095066, 0x01095067, 0x0109506a, 0x0109506b, 0x1901fffe, 0x1d01fffe,
        0x3c29fffe, 0x40095040, 0x40895040, 0x42010010, 0x44000000, 0x48000000, 0x4c000000,
        0xc4000000, 0xc8000000, 0xcc000000, 0xe4000000, 0xe8000000, 0xec000000,
    ];
    for word in words {
        assert!(rt; decode(word) == None, "{word:08x}");
    }
}
