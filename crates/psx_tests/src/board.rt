//! Boards with a ROM of the tests' own, each word as an assembler gives it.
ghost use Rattle.psx_sched.specs.Schedule.{IsPlausible};
ghost use Rattle.std.specs.Prelude.{◌≡◌, ◌≤◌, ◌+◌, IfOk, length};

use psx_base::{Sizes, Stop};
use psx_board::Board;
use psx_cpu::Did;
use psx_exe::Exe;
use psx_ins::reg::Reg;
use psx_sched::{Entry, Schedule, What};
use std::alloc::{AllocError, Global};
use std::test::Fail;

fn rom_of(alloc: Global, words: &[u32]) -> Result<Vec<u8>, AllocError>
    ensures { IfOk result (λ rom. length rom.items ≡ 0x80000) }
{
    let mut rom = Vec::new(alloc);
    for word in words {
        rom.extend_from_slice(&word.to_le_bytes())?;
    }
    rom.resize(0x8_0000, 0)?;
    Ok(rom)
}

// Writes a word, little-endian.
fn put_word(bytes: &mut [u8], at: usize, word: u32)
    requires { at + 4 ≤ length bytes.old }
{
    bytes[at..at + 4].copy_from_slice(&word.to_le_bytes());
}

// The file of a program of two words at 80010000h, whose fill clears the second. It starts there.
fn file(alloc: Global) -> Result<Vec<u8>, AllocError> {
    let mut file = vec![in alloc; 0x24; 0x808]?;
    file[..8].copy_from_slice(b"PS-X EXE");
    put_word(&mut file, 0x10, 0x8001_0004);
    put_word(&mut file, 0x18, 0x8001_0000);
    put_word(&mut file, 0x1C, 8);
    put_word(&mut file, 0x28, 0x8001_0004);
    put_word(&mut file, 0x2C, 4);
    Ok(file)
}

fn board_with(rt: &HostRuntime, words: &[u32], schedule: Schedule) -> Result<Board, Fail> {
    let exe = Exe::read(rt.alloc(), &file(rt.alloc())?)?;
    let rom = rom_of(rt.alloc(), words)?;
    let sizes = Sizes {
        threads: 4,
        events: 16,
    };
    Ok(Board::new(rt.alloc(), &rom, &exe, schedule, sizes)?)
}

fn board_of(rt: &HostRuntime, words: &[u32]) -> Result<Board, Fail> {
    board_with(rt, words, Schedule::new(rt.alloc()))
}

// A board with a schedule of one entry.
fn board_told(rt: &HostRuntime, words: &[u32], entry: Entry) -> Result<Board, Fail>
    requires { IsPlausible entry }
{
    let mut schedule = Schedule::new(rt.alloc());
    schedule.push(entry)?;
    board_with(rt, words, schedule)
}

// One step of a board that hasn't stopped.
fn step(board: &mut Board) -> Option<Did> {
    if board.taken() == u64::MAX {
        return None;
    }
    match board.stopped() {
        Some(_) => None,
        None => Some(board.step()),
    }
}

// Steps a board until an interrupt is taken, and tells the count before that step.
fn interrupted_at(board: &mut Board) -> Option<u64> {
    for _ in 0..20 {
        let count = board.taken();
        if step(board) == Some(Did::Entered { code: 0 }) {
            return Some(count);
        }
    }
    None
}

#[test]
fn starts_with_the_program_in_place(rt: HostRuntime) -> Result<(), Fail> {
    let board = board_of(&rt, &[])?;
    assert_eq!(rt;
        (board.taken(), board.stopped(), board.line()),
        (0, None, false)
    );
    assert_eq!(rt; board.cpu().pc(), 0xBFC0_0000);
    assert_eq!(rt; board.ram().word(0x1_0000), 0x2424_2424);
    assert_eq!(rt; board.ram().word(0x1_0004), 0);
    Ok(())
}

#[test]
fn a_letter_and_a_halt(rt: HostRuntime) -> Result<(), Fail> {
    // lui r8, 1F80h; addiu r9, r0, 41h; sw r9, 2104h(r8); lw r11, 2118h(r8); sw r9, 2108h(r8); addiu r10, r0, 1; sw r10, 2114h(r8)
    let words = [
        0x3C08_1F80,
        0x2409_0041,
        0xAD09_2104,
        0x8D0B_2118,
        0xAD09_2108,
        0x240A_0001,
        0xAD0A_2114,
    ];
    let letter = Did::PortWrite {
        at: 0x1F80_2104,
        value: 0x41,
    };
    let start = Did::PortRead {
        at: 0x1F80_2118,
        value: 0x8001_0004,
    };
    let first = Did::PortWrite {
        at: 0x1F80_2108,
        value: 0x41,
    };
    let exit = Stop::Exit { code: 0x41 };
    let mut board = board_of(&rt, &words)?;
    for did in [
        Did::Plain,
        Did::Plain,
        letter,
        start,
        first,
        Did::Plain,
        Did::Stopped(exit),
    ] {
        assert_eq!(rt; step(&mut board), Some(did));
    }
    assert_eq!(rt; (board.taken(), board.stopped()), (7, Some(exit)));
    assert_eq!(rt; board.cpu().pc(), 0xBFC0_001C);
    Ok(())
}

#[test]
fn a_stop_of_the_guard_finishes_no_step(rt: HostRuntime) -> Result<(), Fail> {
    // lui r8, 8000h; jr r8; rfe
    let stop = Stop::UserFetch { at: 0x8000_0000 };
    let mut board = board_of(&rt, &[0x3C08_8000, 0x0100_0008, 0x4200_0010])?;
    for did in [Did::Plain, Did::Plain, Did::Left, Did::Stopped(stop)] {
        assert_eq!(rt; step(&mut board), Some(did));
    }
    assert_eq!(rt; (board.taken(), board.stopped()), (3, Some(stop)));
    Ok(())
}

#[test]
fn a_line_at_each_step(rt: HostRuntime) -> Result<(), Fail> {
    // lui r8, 1F80h; addiu r9, r0, 1; sw r9, 1074h(r8); lui r10, 0040h; ori r10, r10, 0401h; lui r11, BFC0h; mtc0 r10, r12;
    // lw r2, 0(r11); addu r4, r2, r0; beq r0, r0, 2; addiu r5, r0, 1
    let words = [
        0x3C08_1F80,
        0x2409_0001,
        0xAD09_1074,
        0x3C0A_0040,
        0x354A_0401,
        0x3C0B_BFC0,
        0x408A_6000,
        0x8D62_0000,
        0x0040_2021,
        0x1000_0002,
        0x2405_0001,
    ];
    // The count of the line, the count of the entry, EPC, Cause and r2: behind the load it is written, and in the slot EPC is the branch's.
    for (line, entry, epc, cause, loaded) in [
        (0, 7, 0xBFC0_001C, 0, 0),
        (7, 7, 0xBFC0_001C, 0, 0),
        (8, 8, 0xBFC0_0020, 0, 0x3C08_1F80),
        (9, 9, 0xBFC0_0024, 0, 0x3C08_1F80),
        (10, 10, 0xBFC0_0024, 0x8000_0000, 0x3C08_1F80),
        (11, 11, 0xBFC0_0030, 0, 0x3C08_1F80),
    ] {
        let raised = Entry {
            count: line,
            what: What::Line(0),
        };
        let mut board = board_told(&rt, &words, raised)?;
        assert_eq!(rt; interrupted_at(&mut board), Some(entry));
        assert_eq!(rt; (board.cpu().epc(), board.cpu().cause()), (epc, cause));
        assert_eq!(rt; board.cpu().reg(Reg(2)), loaded);
        assert_eq!(rt; (board.cpu().pc(), board.line()), (0xBFC0_0180, true));
    }
    Ok(())
}

#[test]
fn a_counter_interrupts(rt: HostRuntime) -> Result<(), Fail> {
    // lui r8, 1F80h; addiu r9, r0, 40h; sw r9, 1074h(r8); addiu r9, r0, 5; sw r9, 1128h(r8); lui r10, 0040h; ori r10, r10, 0401h; mtc0 r10, r12;
    // addiu r9, r0, 58h; sw r9, 1124h(r8): counter 2 is 0 behind the tenth step's write and 5 at the count 14.
    let words = [
        0x3C08_1F80,
        0x2409_0040,
        0xAD09_1074,
        0x2409_0005,
        0xAD09_1128,
        0x3C0A_0040,
        0x354A_0401,
        0x408A_6000,
        0x2409_0058,
        0xAD09_1124,
    ];
    let mut board = board_of(&rt, &words)?;
    assert_eq!(rt; interrupted_at(&mut board), Some(14));
    assert_eq!(rt; board.cpu().epc(), 0xBFC0_0038);
    Ok(())
}

#[test]
fn a_byte_is_there_at_its_count(rt: HostRuntime) -> Result<(), Fail> {
    // lui r8, 1F80h; lw r9, 2104h(r8); lw r9, 2104h(r8)
    let words = [0x3C08_1F80, 0x8D09_2104, 0x8D09_2104];
    let letter = Entry {
        count: 1,
        what: What::Byte(0x41),
    };
    let mut board = board_told(&rt, &words, letter)?;
    let at = 0x1F80_2104;
    assert_eq!(rt; step(&mut board), Some(Did::Plain));
    for value in [0x41, 0] {
        assert_eq!(rt; step(&mut board), Some(Did::PortRead { at, value }));
    }
    Ok(())
}
