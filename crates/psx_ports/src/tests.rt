//! The ports on the happy path, each halt code, and counters against turns made one by one.
ghost use Rattle.std.specs.Prelude.{◌≡◌, IfOk};

use super::*;
use psx_base::ports::{
    CONSOLE_DATA, CONSOLE_STATUS, COUNTERS, HALT, HALT_A, HALT_B, HALT_C, I_MASK, I_STAT,
    START_EVENTS, START_GP, START_PC, START_SP, START_THREADS,
};
use psx_base::{Memory, Sizes, Table, is_port};
use std::alloc::Global;
use std::test::Fail;

fn ports(alloc: Global) -> Result<Ports, Memory>
    ensures { IfOk result (λ p. p.now ≡ 0) }
{
    let sizes = Sizes {
        threads: 5,
        events: 20,
    };
    Ports::new(alloc, 0x8001_0000, 0x8010_0000, 0x801F_FF00, sizes)
}

// Addresses here are ports; else nothing is read.
fn read(ports: &mut Ports, at: u32) -> u32 {
    if is_port(at) { ports.read(at) } else { 0 }
}

fn write(ports: &mut Ports, at: u32, value: u32) -> PortDid {
    if is_port(at) {
        ports.write(at, value)
    } else {
        PortDid::Quiet
    }
}

#[test]
fn answers_what_was_given(rt: HostRuntime) {
    let mut ports = ports(rt.alloc()).expect(&rt, "room");
    assert_eq!(rt; read(&mut ports, START_PC), 0x8001_0000);
    assert_eq!(rt; read(&mut ports, START_GP), 0x8010_0000);
    assert_eq!(rt; read(&mut ports, START_SP), 0x801F_FF00);
    assert_eq!(rt; read(&mut ports, START_THREADS), 5);
    assert_eq!(rt; read(&mut ports, START_EVENTS), 20);
    assert_eq!(rt; read(&mut ports, HALT_A), 0);
    assert!(rt; !ports.line());
    assert_eq!(rt; ports.deadline(), u64::MAX);
    assert!(rt; write(&mut ports, CONSOLE_DATA, 0x1234_5641) == PortDid::Tty(0x41));
    assert!(rt; write(&mut ports, START_PC, 1) == PortDid::Quiet);
    assert_eq!(rt; read(&mut ports, START_PC), 0x8001_0000);
}
// The stop of a code after the words 2, 3Fh and 80010010h.
#[tactic(auto, unfolding(psx_base::specs::PortAddresses::port))]
fn halted_by(ports: &mut Ports, code: u32) -> PortDid {
    write(ports, HALT_A, 2);
    write(ports, HALT_B, 0x3F);
    write(ports, HALT_C, 0x8001_0010);
    write(ports, HALT, code)
}

#[test]
fn stops_by_its_code(rt: HostRuntime) {
    let mut ports = ports(rt.alloc()).expect(&rt, "room");
    let unserved = Stop::Unserved {
        table: Table::C,
        number: 0x3F,
        ra: 0x8001_0010,
    };
    let stops = [
        Stop::Exit { code: 2 },
        Stop::Exception { code: 2, pc: 0x3F },
        unserved,
        Stop::BadPointer { at: 2, ra: 0x3F },
        Stop::BadThread {
            number: 2,
            ra: 0x3F,
        },
        Stop::Deep { ra: 2 },
        Stop::BadReturn { ra: 2 },
    ];
    let mut code = 0u32;
    assert!(rt; halted_by(&mut ports, code) == PortDid::Quiet);
    for stop in stops.iter() {
        code = code.wrapping_add(1);
        assert!(rt; halted_by(&mut ports, code) == PortDid::Halt(*stop));
    }
    assert!(rt; halted_by(&mut ports, 8) == PortDid::Quiet);
}

#[test]
fn console_gives_bytes_in_order(rt: HostRuntime) {
    let mut ports = ports(rt.alloc()).expect(&rt, "room");
    assert_eq!(rt; read(&mut ports, CONSOLE_STATUS), 0);
    for byte in [0x68u8, 0x69] {
        if ports.held() < 65_536 {
            ports.give(byte);
        }
    }
    assert_eq!(rt; ports.held(), 2);
    assert_eq!(rt; read(&mut ports, CONSOLE_STATUS), 1);
    assert_eq!(rt; read(&mut ports, CONSOLE_DATA), 0x68);
    assert_eq!(rt; read(&mut ports, CONSOLE_DATA), 0x69);
    assert_eq!(rt; read(&mut ports, CONSOLE_STATUS), 0);
    assert_eq!(rt; read(&mut ports, CONSOLE_DATA), 0);
}

#[test]
fn lines_stay_until_they_are_acknowledged(rt: HostRuntime) {
    let mut ports = ports(rt.alloc()).expect(&rt, "room");
    ports.raise(0);
    ports.raise(10);
    write(&mut ports, I_MASK, 0xFFFF_FC01);
    assert_eq!(rt; read(&mut ports, I_MASK), 0x401);
    assert_eq!(rt; read(&mut ports, I_STAT), 0x401);
    write(&mut ports, I_STAT, !1);
    assert_eq!(rt; read(&mut ports, I_STAT), 0x400);
    assert!(rt; ports.line());
    write(&mut ports, I_MASK, 0x3FF);
    assert!(rt; !ports.line());
}

// A counter whose turns are made one by one.
#[derive(Drop)]
struct Plain {
    mode: u32,
    target: u32,
    value: u32,
    asked: bool,
    pending: bool,
}

impl Plain {
    fn has(&self, mask: u32) -> bool {
        self.mode & mask != 0
    }

    fn turn(&mut self) {
        let back = self.has(8) && self.target != 0 && self.value == self.target;
        self.value = if back || self.value == 0xFFFF {
            0
        } else {
            self.value.wrapping_add(1)
        };
        let target = self.target != 0 && self.value == self.target;
        let top = self.value == 0xFFFF;
        self.mode |= if target { 0x800 } else { 0 };
        self.mode |= if top { 0x1000 } else { 0 };
        if self.has(0x10) && target || self.has(0x20) && top {
            self.pending |= self.has(0x40) || !self.asked;
            self.asked = true;
        }
    }
}

// A counter, the steps between its turns, its mode, target and value.
const PROGRAMS: [(u32, u64, u32, u32, u32); 12] = [
    (0, 1, 0x058, 5, 2),
    (0, 8, 0x118, 5, 0xFFFC),
    (0, 1, 0x270, 3, 0xFFFA),
    (0, 8, 0x378, 3, 1),
    (1, 1, 0x020, 7, 0xFFFB),
    (1, 2048, 0x138, 4, 0xFFFC),
    (1, 1, 0x2DF, 6, 6),
    (1, 2048, 0x358, 2, 0),
    (2, 1, 0x010, 4, 0),
    (2, 1, 0x178, 0, 0xFFFD),
    (2, 8, 0x250, 0xFFFF, 0xFFF0),
    (2, 8, 0x318, 1, 0),
];

// Ports, with the count of their last tick.
#[derive(Drop)]
struct Clocked {
    ports: Ports,
    now: u64,
    ghost kept: { ports.now ≡ now },
}

impl Clocked {
    // Nothing happens at a count before the last one.
    fn tick(&mut self, count: u64) {
        if self.now <= count {
            self.ports.tick(count);
            self.now = count;
        }
    }

    fn read(&mut self, at: u32) -> u32 {
        if is_port(at) { self.ports.read(at) } else { 0 }
    }

    fn write(&mut self, at: u32, value: u32) {
        if is_port(at) {
            self.ports.write(at, value);
        }
    }
}

// Whether a counter agrees with turns made one by one, at the count of each turn and before it.
fn agrees(ports: Ports, program: (u32, u64, u32, u32, u32)) -> bool
    requires { ports.now ≡ 0 }
{
    let (number, clock, mode, target, value) = program;
    let mut board = Clocked { ports, now: 0 };
    let at = COUNTERS.wrapping_add(number.wrapping_mul(16));
    let bit = 0x10u32.wrapping_shl(number);
    board.write(at.wrapping_add(8), target);
    board.write(at.wrapping_add(4), mode);
    board.write(at, value);
    let mut plain = Plain {
        mode,
        target,
        value,
        asked: false,
        pending: false,
    };
    let mut same = true;
    for turn in 1u64..20 {
        board.tick(turn.wrapping_mul(clock).wrapping_sub(1));
        same = same && board.read(at) == plain.value;
        plain.turn();
        board.tick(turn.wrapping_mul(clock));
        same = same && board.read(at) == plain.value;
        same = same && (board.read(I_STAT) & bit != 0) == plain.pending;
        if turn % 5 == 0 {
            board.write(I_STAT, !bit);
            plain.pending = false;
        }
    }
    same && board.read(at.wrapping_add(4)) == plain.mode
}

#[test]
fn counters_turn_as_one_by_one(rt: HostRuntime) {
    for program in PROGRAMS.iter() {
        let ports = ports(rt.alloc()).expect(&rt, "room");
        assert!(rt; agrees(ports, *program));
    }
}

#[test]
fn many_turns_take_no_time(rt: HostRuntime) {
    let ports = ports(rt.alloc()).expect(&rt, "room");
    let mut board = Clocked { ports, now: 0 };
    board.write(COUNTERS + 0x08, 1000);
    board.write(COUNTERS + 0x04, 0x48);
    board.write(COUNTERS + 0x24, 0x200);
    board.tick(1_000_000_000_000_000);
    assert_eq!(rt; board.read(COUNTERS), 1000);
    assert_eq!(rt; board.read(COUNTERS + 0x20), 0xD000);
    assert_eq!(rt; board.read(COUNTERS + 0x04), 0x848);
    assert_eq!(rt; board.read(COUNTERS + 0x04), 0x48);
}
