use psx_asm::{AsmError, AsmFault, Object, assemble};
use std::alloc::Global;
use std::process::Abort;
use std::test::Fail;

const FROM: u32 = 0x8001_0000;

const TO: u32 = 0x801F_FFFF;

// What a text gives.
pub(crate) fn object(rt: &impl Abort, alloc: Global, text: &[u8]) -> Object {
    assemble(alloc, text, FROM, TO).expect(rt, "no fault")
}

// The bytes of the only part of what a text gives.
fn bytes(rt: &impl Abort, alloc: Global, text: &[u8]) -> Vec<u8> {
    let found = object(rt, alloc, text);
    let mut bytes = Vec::new(alloc);
    if let Some(part) = found.parts.as_slice().first() {
        bytes
            .extend_from_slice(part.bytes.as_slice())
            .expect(rt, "memory");
    }
    bytes
}

// The words of the only part of what a text gives.
pub(crate) fn words(rt: &impl Abort, alloc: Global, text: &[u8]) -> Vec<u32> {
    let found = bytes(rt, alloc, text);
    let mut words = Vec::new(alloc);
    for word in found.as_slice().chunks_exact(4) {
        let word = u32::from_le_bytes([word[0], word[1], word[2], word[3]]);
        words.push(word).expect(rt, "memory");
    }
    words
}

// The line and the fault of a text: the fault's number in the order of the faults, and its value.
fn fault(rt: &impl Abort, alloc: Global, text: &[u8]) -> (u32, u32, u32) {
    match assemble(alloc, text, FROM, TO) {
        Ok(_) => (0, 0, 0),
        Err(AsmError::Line { line, fault }) => match fault {
            AsmFault::BadToken => (line, 1, 0),
            AsmFault::UnknownWord => (line, 2, 0),
            AsmFault::BadOperand => (line, 3, 0),
            AsmFault::Twice { label } => {
                assert_eq!(rt; label.as_slice(), b"x".as_slice());
                (line, 4, 0)
            }
            AsmFault::NoLabel { label } => {
                assert_eq!(rt; label.as_slice(), b"x".as_slice());
                (line, 5, 0)
            }
            AsmFault::Range { value } => (line, 6, value),
            AsmFault::Overlap => (line, 7, 0),
        },
        Err(_) => (0, 8, 0),
    }
}

#[test]
fn two_words_of_la(rt: HostRuntime) {
    let found = words(&rt, rt.alloc(), b"la r4, 0x80012345");
    assert_eq!(rt; found.as_slice(), [0x3C04_8001, 0x3484_2345].as_slice());
}

#[test]
fn bytes_of_values_and_a_text(rt: HostRuntime) {
    let found = bytes(&rt, rt.alloc(), b".word 1 2 3\nx: .asciiz \"a\\n\"");
    let wanted = [1, 0, 0, 0, 2, 0, 0, 0, 3, 0, 0, 0, 0x61, 0x0A, 0];
    assert_eq!(rt; found.as_slice(), wanted.as_slice());
}

// By the numbers' ranges: addiu, ori, lui, and lui and ori.
#[test]
fn numbers_that_registers_get(rt: HostRuntime) {
    let text =
        b"li r2, -32768\nli r2, 32767\nli r2, 32768\nli r2, 65535\nli r2, 65536\nli r2, 4294967295";
    let found = words(&rt, rt.alloc(), text);
    let wanted = [
        0x2402_8000,
        0x2402_7FFF,
        0x3402_8000,
        0x3402_FFFF,
        0x3C02_0001,
        0x3C02_FFFF,
        0x3442_FFFF,
    ];
    assert_eq!(rt; found.as_slice(), wanted.as_slice());
}

// One text for each list of operands (R3000A manual, opcode bit encoding).
#[test]
fn operands_of_each_kind(rt: HostRuntime) {
    let text =
        b"nop\nrfe\njr r31\nmfhi r4\nmove r5, r6\nmult r7, r8\naddu r9, r10, r11\nsllv r9, r10, r11\n\
sll r1, r2, 31\naddi r3, r4, -1\nori r3, r4, 65535\nlui r5, 0x8001\nlw r6, -4(r29)\nmtc0 r2, 12\n\
syscall\nbreak 1048575\nx: bne r1, r2, x\nbgez r3, x\nb x\nj x+8";
    let found = words(&rt, rt.alloc(), text);
    let wanted = [
        0x0000_0000,
        0x4200_0010,
        0x03E0_0008,
        0x0000_2010,
        0x00C0_2821,
        0x00E8_0018,
        0x014B_4821,
        0x016A_4804,
        0x0002_0FC0,
        0x2083_FFFF,
        0x3483_FFFF,
        0x3C05_8001,
        0x8FA6_FFFC,
        0x4082_6000,
        0x0000_000C,
        0x03FF_FFCD,
        0x1422_FFFF,
        0x0461_FFFE,
        0x1000_FFFD,
        0x0800_4012,
    ];
    assert_eq!(rt; found.as_slice(), wanted.as_slice());
}

#[test]
fn directives(rt: HostRuntime) {
    let text = b".equ one 1\n.byte one -128 255\n.align 2\n.half -32768 65535 .ascii\n";
    assert_eq!(rt; fault(&rt, rt.alloc(), text), (4, 3, 0));
    let text =
        b".equ one 1\n.byte one -128 255\n.align 2\n.half -32768 65535\n.space one\n.ascii \"\\0\"\n.align 0";
    let found = bytes(&rt, rt.alloc(), text);
    let wanted = [1, 0x80, 0xFF, 0, 0, 0x80, 0xFF, 0xFF, 0, 0];
    assert_eq!(rt; found.as_slice(), wanted.as_slice());
}

#[test]
fn parts_and_the_start(rt: HostRuntime) {
    let text = b".word 1\n.org 0x80020000\nstart: .word start\n.word 2";
    let found = object(&rt, rt.alloc(), text);
    assert_eq!(rt; found.start, Some(0x8002_0000));
    let parts = found.parts.as_slice();
    assert_eq!(rt; parts.len(), 2);
    assert_eq!(rt; parts[0].at, 0x8001_0000);
    assert_eq!(rt; parts[1].at, 0x8002_0000);
    assert_eq!(rt;
        parts[1].bytes.as_slice(),
        [0, 0, 2, 0x80, 2, 0, 0, 0].as_slice()
    );
    let found = object(&rt, rt.alloc(), b".equ start 0x80010000\nnop");
    assert_eq!(rt; found.start, None);
    let found = object(&rt, rt.alloc(), b"");
    assert_eq!(rt; found.parts.as_slice().len(), 0);
}

#[test]
fn a_branch_as_far_as_it_goes(rt: HostRuntime) {
    let text = b"start: beq r0, r0, far\n.space 131072\nfar: nop";
    assert_eq!(rt; fault(&rt, rt.alloc(), text), (1, 6, 0x8003_0004));
    let text = b"start: beq r0, r0, far\n.space 131068\nfar: nop";
    let found = words(&rt, rt.alloc(), text);
    assert_eq!(rt; found.as_slice().first(), Some(&0x1000_7FFF));
}

#[test]
fn faults_of_the_first_round(rt: HostRuntime) {
    let alloc = rt.alloc();
    assert_eq!(rt; fault(&rt, alloc, b"nop\n$"), (2, 1, 0));
    assert_eq!(rt; fault(&rt, alloc, b"foo r1"), (1, 2, 0));
    assert_eq!(rt; fault(&rt, alloc, b"x: y: nop"), (1, 2, 0));
    assert_eq!(rt; fault(&rt, alloc, b"addu r1, r2"), (1, 3, 0));
    assert_eq!(rt; fault(&rt, alloc, b"sll r1, r2, 32"), (1, 3, 0));
    assert_eq!(rt; fault(&rt, alloc, b"li r1, later\n.equ later 1"), (1, 3, 0));
    assert_eq!(rt; fault(&rt, alloc, b".align 13"), (1, 3, 0));
    assert_eq!(rt; fault(&rt, alloc, b"x: nop\nx: nop"), (2, 4, 0));
    assert_eq!(rt; fault(&rt, alloc, b"x: nop\n.equ x 1"), (2, 4, 0));
    assert_eq!(rt; fault(&rt, alloc, b"x: .equ x 1"), (1, 4, 0));
}

#[test]
fn faults_of_the_second_round(rt: HostRuntime) {
    let alloc = rt.alloc();
    assert_eq!(rt; fault(&rt, alloc, b"j x\n$"), (2, 1, 0));
    assert_eq!(rt; fault(&rt, alloc, b".byte 256\n.word x"), (1, 6, 256));
    assert_eq!(rt; fault(&rt, alloc, b".byte 256, x"), (1, 5, 0));
    assert_eq!(rt; fault(&rt, alloc, b".byte 1\n.half 1"), (2, 6, 0x8001_0001));
    assert_eq!(rt; fault(&rt, alloc, b"b 0x80010002"), (1, 6, 0x8001_0002));
    assert_eq!(rt; fault(&rt, alloc, b"j 0x90010000"), (1, 6, 0x9001_0000));
    assert_eq!(rt;
        fault(&rt, alloc, b".org 0x801FFFFE\n.ascii \"abc\""),
        (2, 6, 0x8020_0000)
    );
    assert_eq!(rt;
        fault(&rt, alloc, b".space 4294967295"),
        (1, 6, 0x8020_0000)
    );
    assert_eq!(rt;
        fault(&rt, alloc, b".word 1\n.org 0x80010003\n.byte 1"),
        (3, 7, 0)
    );
}

#[test]
fn a_text_that_is_too_long(rt: HostRuntime) -> Result<(), Fail> {
    let text = vec![in rt.alloc(); b'\n'; 4_194_305]?;
    let limit = match assemble(rt.alloc(), text.as_slice(), FROM, TO) {
        Err(AsmError::TooLong { limit }) => Some(limit),
        _ => None,
    };
    assert_eq!(rt; limit, Some(4_194_304));
    Ok(())
}
