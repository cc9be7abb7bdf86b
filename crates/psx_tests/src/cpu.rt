// Short programs in the ROM, each word as an assembler gives it. r1 is the address of the bytes 11h, 22h, .. 88h.
ghost use Rattle.std.specs.Prelude.{◌≡◌, IfOk, length};

use psx_base::Stop;
use psx_cpu::{BusAnswer, Cpu, Did, PortRead};
use psx_ins::reg::Reg;
use psx_ram::Ram;
use std::alloc::{AllocError, Global};
use std::test::Fail;

const IDLE: BusAnswer = BusAnswer {
    line: false,
    value: 0,
};

fn rom_of(alloc: Global, program: &[u32]) -> Result<Vec<u8>, AllocError>
    ensures { IfOk result (λ rom. length rom.items ≡ 0x80000) }
{
    let mut rom = Vec::new(alloc);
    for word in program {
        rom.extend_from_slice(&word.to_le_bytes())?;
    }
    rom.resize(0x8_0000, 0)?;
    Ok(rom)
}

fn ram_of(rt: &HostRuntime, program: &[u32]) -> Result<Ram, Fail> {
    let rom = rom_of(rt.alloc(), program)?;
    let mut ram = Ram::new(rt.alloc(), &rom)?;
    ram.set_word(0x1_0000, 0x4433_2211);
    ram.set_word(0x1_0004, 0x8877_6655);
    Ok(ram)
}

// The processor after so many steps with nothing from outside.
fn stepped(ram: &mut Ram, steps: usize) -> Cpu {
    let mut cpu = Cpu::reset();
    for _ in 0..steps {
        cpu.step(ram, IDLE);
    }
    cpu
}

#[test]
fn loads_come_one_instruction_later(rt: HostRuntime) -> Result<(), Fail> {
    // lui r1, 8001h; addiu r2, r0, 1; lw r2, 0(r1); addu r4, r2, r0; addu r5, r2, r0
    let program = [
        0x3C01_8001,
        0x2402_0001,
        0x8C22_0000,
        0x0040_2021,
        0x0040_2821,
    ];
    let mut ram = ram_of(&rt, &program)?;
    let cpu = stepped(&mut ram, 5);
    assert_eq!(rt; cpu.reg(Reg(4)), 1);
    assert_eq!(rt; cpu.reg(Reg(5)), 0x4433_2211);
    // lui r1, 8001h; lwr r2, 1(r1); lwl r2, 4(r1); nop
    let mut ram = ram_of(&rt, &[0x3C01_8001, 0x9822_0001, 0x8822_0004, 0])?;
    assert_eq!(rt; stepped(&mut ram, 4).reg(Reg(2)), 0x5544_3322);
    Ok(())
}

#[test]
fn quotients_at_the_edges(rt: HostRuntime) -> Result<(), Fail> {
    // addiu r2, r0, -5; div r2, r0
    let mut ram = ram_of(&rt, &[0x2402_FFFB, 0x0040_001A])?;
    let cpu = stepped(&mut ram, 2);
    assert_eq!(rt; (cpu.lo(), cpu.hi()), (1, 0xFFFF_FFFB));
    // lui r3, 8000h; addiu r4, r0, -1; div r3, r4
    let mut ram = ram_of(&rt, &[0x3C03_8000, 0x2404_FFFF, 0x0064_001A])?;
    let cpu = stepped(&mut ram, 3);
    assert_eq!(rt; (cpu.lo(), cpu.hi()), (0x8000_0000, 0));
    Ok(())
}

#[test]
fn exception_in_a_slot(rt: HostRuntime) -> Result<(), Fail> {
    // beq r0, r0, 8; lw r2, 1(r0)
    let mut ram = ram_of(&rt, &[0x1000_0001, 0x8C02_0001])?;
    let cpu = stepped(&mut ram, 1);
    assert!(rt; cpu.in_slot() && cpu.next_pc() == 0xBFC0_0008);
    let cpu = stepped(&mut ram, 2);
    assert_eq!(rt; (cpu.epc(), cpu.cause()), (0xBFC0_0000, 0x8000_0010));
    assert_eq!(rt; (cpu.bad_address(), cpu.pc()), (1, 0xBFC0_0180));
    Ok(())
}

#[test]
fn return_from_an_exception(rt: HostRuntime) -> Result<(), Fail> {
    // addiu r2, r0, 34h; mtc0 r2, r12; rfe
    let mut ram = ram_of(&rt, &[0x2402_0034, 0x4082_6000, 0x4200_0010])?;
    let mut cpu = stepped(&mut ram, 3);
    assert!(rt; cpu.sr() == 0x3D && !cpu.latch());
    let barred = Did::Stopped(Stop::UserFetch { at: 0xBFC0_000C });
    assert_eq!(rt; cpu.step(&mut ram, IDLE), barred);
    Ok(())
}

#[test]
fn words_that_are_no_instruction(rt: HostRuntime) -> Result<(), Fail> {
    for (word, code) in [(0x0000_0048, 10), (0x4800_0000, 11)] {
        let mut ram = ram_of(&rt, &[word])?;
        let did = Cpu::reset().step(&mut ram, IDLE);
        assert_eq!(rt; did, Did::Entered { code }, "{word:08x}");
    }
    Ok(())
}

#[test]
fn ports_are_read_and_written(rt: HostRuntime) -> Result<(), Fail> {
    // lui r1, 1F80h; lw r2, 1070h(r1); sw r1, 1074h(r1)
    let mut ram = ram_of(&rt, &[0x3C01_1F80, 0x8C22_1070, 0xAC21_1074])?;
    let mut cpu = stepped(&mut ram, 1);
    let at = 0x1F80_1070;
    assert_eq!(rt; cpu.peek_port(&ram, false), Some(PortRead { at }));
    let bus = BusAnswer {
        line: false,
        value: 7,
    };
    assert_eq!(rt; cpu.step(&mut ram, bus), Did::PortRead { at, value: 7 });
    assert_eq!(rt; cpu.peek_port(&ram, false), None);
    let written = Did::PortWrite {
        at: 0x1F80_1074,
        value: 0x1F80_0000,
    };
    assert_eq!(rt; cpu.step(&mut ram, IDLE), written);
    Ok(())
}
