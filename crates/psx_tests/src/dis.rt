//! Words and their printed forms, put together by hand from the instruction table.

use psx_asm::assemble;
use psx_dis::{mnemonic, print};
use psx_ins::ins::Ins;
use std::test::Fail;

#[test]
fn an_instruction_and_a_word_that_is_none(rt: HostRuntime) -> Result<(), Fail> {
    let text = print(rt.alloc(), 0x8001_0000, &[0x2404_0041, 0xFFFF_FFFF]).expect(&rt, "memory");
    assert_eq!(rt;
        text.as_str(),
        ".org 0x80010000\naddiu r4, r0, 65\n.word 0xFFFFFFFF\n"
    );
    assert_eq!(rt; mnemonic(Ins::RFE), "rfe");
    Ok(())
}

#[test]
fn a_program_that_prints_a_letter(rt: HostRuntime) -> Result<(), Fail> {
    let words = [
        0x2404_0041,
        0x2409_003C,
        0x240A_00A0,
        0x0140_F809,
        0x0000_0000,
        0x2404_0000,
        0x2409_0006,
        0x0140_0008,
        0x0000_0000,
    ];
    let text = print(rt.alloc(), 0x8001_0000, &words).expect(&rt, "memory");
    assert_eq!(rt;
        text.as_str(),
        ".org 0x80010000
addiu r4, r0, 65
addiu r9, r0, 60
addiu r10, r0, 160
jalr r31, r10
sll r0, r0, 0
addiu r4, r0, 0
addiu r9, r0, 6
jr r10
sll r0, r0, 0
"
    );
    Ok(())
}

#[test]
fn a_word_of_each_form_without_a_target(rt: HostRuntime) -> Result<(), Fail> {
    let words = [
        0x0003_1100,
        0x0083_1004,
        0x0100_F809,
        0x0000_014C,
        0x03FF_FFCD,
        0x0000_1010,
        0x0060_0013,
        0x0085_0018,
        0x0064_1023,
        0x2862_8000,
        0x3462_FFFF,
        0x3C02_8001,
        0x8FBF_FFFC,
        0xB841_7FFF,
        0x401A_7000,
        0x4084_6000,
        0x4200_0010,
    ];
    let text = print(rt.alloc(), 0x8001_0000, &words).expect(&rt, "memory");
    assert_eq!(rt;
        text.as_str(),
        ".org 0x80010000
sll r2, r3, 4
sllv r2, r3, r4
jalr r31, r8
syscall 5
break 1048575
mfhi r2
mtlo r3
mult r4, r5
subu r2, r3, r4
slti r2, r3, -32768
ori r2, r3, 65535
lui r2, 32769
lw r31, -4(r29)
swr r1, 32767(r2)
mfc0 r26, 14
mtc0 r4, 12
rfe
"
    );
    Ok(())
}

#[test]
fn targets(rt: HostRuntime) -> Result<(), Fail> {
    let words = [0x0491_FFFF, 0x0C00_4001, 0x1485_0002, 0x18C0_7FFF];
    let text = print(rt.alloc(), 0x8001_0028, &words).expect(&rt, "memory");
    assert_eq!(rt;
        text.as_str(),
        ".org 0x80010028
bgezal r4, 0x80010028
jal 0x80010004
bne r4, r5, 0x8001003C
blez r6, 0x80030034
"
    );
    Ok(())
}

#[test]
fn targets_at_the_ends(rt: HostRuntime) -> Result<(), Fail> {
    let first = print(rt.alloc(), 0, &[0x1000_FFFF, 0x1000_FFFD]).expect(&rt, "memory");
    assert_eq!(rt;
        first.as_str(),
        ".org 0x00000000
beq r0, r0, 0x00000000
.word 0x1000FFFD
"
    );
    let words = [0x1000_0000, 0x0800_0001, 0x1000_FFFF, 0x1000_0000];
    let last = print(rt.alloc(), 0xFFFF_FFF0, &words).expect(&rt, "memory");
    assert_eq!(rt;
        last.as_str(),
        ".org 0xFFFFFFF0
beq r0, r0, 0xFFFFFFF4
j 0xF0000004
beq r0, r0, 0xFFFFFFF8
.word 0x10000000
"
    );
    let jump = print(rt.alloc(), 0xFFFF_FFFC, &[0x0800_0001]).expect(&rt, "memory");
    assert_eq!(rt; jump.as_str(), ".org 0xFFFFFFFC\nj 0x00000004\n");
    Ok(())
}

#[test]
fn what_is_printed_assembles_back(rt: HostRuntime) -> Result<(), Fail> {
    let words = [
        0x2404_0041,
        0x8FBF_FFFC,
        0x0491_FFFF,
        0x0C00_4001,
        0x03FF_FFCD,
        0xFFFF_FFFF,
    ];
    let text = print(rt.alloc(), 0x8001_0000, &words).expect(&rt, "memory");
    let object = assemble(rt.alloc(), text.as_bytes(), 0x8001_0000, 0x8001_0017).expect(
        &rt, "no fault",
    );
    let part = object.parts.as_slice().first().expect(&rt, "a part");
    assert_eq!(rt; part.at, 0x8001_0000);
    assert_eq!(rt;
        part.bytes.as_slice(),
        b"\x41\x00\x04\x24\xFC\xFF\xBF\x8F\xFF\xFF\x91\x04\x01\x40\x00\x0C\xCD\xFF\xFF\x03\xFF\xFF\xFF\xFF".as_slice()
    );
    assert_eq!(rt; object.start, None);
    Ok(())
}
