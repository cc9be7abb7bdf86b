//! The pieces of random programs: words, instructions, accesses, branches, and calls with their arguments.
use crate::numbers::Numbers;
use std::alloc::{AllocError, Global};

// Where a program's words stand.
pub(crate) const BEGIN: u32 = 0x8001_0000;

// How many words a jump into the program may aim at.
const AIMS: u32 = 0x400;

// The gates of the three tables.
const GATE_A: u32 = 0xA0;

pub(crate) const GATE_B: u32 = 0xB0;

pub(crate) const GATE_C: u32 = 0xC0;

// The served calls of table A but exit.
const CALLS_A: [u32; 52] = [
    0x00, 0x02, 0x03, 0x04, 0x08, 0x09, 0x0C, 0x0D, 0x0E, 0x0F, 0x10, 0x11, 0x13, 0x14, 0x15, 0x16,
    0x17, 0x18, 0x19, 0x1A, 0x1B, 0x1C, 0x1D, 0x1E, 0x1F, 0x20, 0x21, 0x22, 0x23, 0x24, 0x25, 0x26,
    0x27, 0x28, 0x29, 0x2A, 0x2B, 0x2C, 0x2D, 0x2E, 0x2F, 0x30, 0x33, 0x34, 0x37, 0x38, 0x39, 0x3B,
    0x3C, 0x3E, 0x3F, 0x44,
];

// Those of table B but exit and what takes a thread or a frame.
const CALLS_B: [u32; 26] = [
    0x02, 0x03, 0x04, 0x05, 0x06, 0x07, 0x08, 0x09, 0x0A, 0x0B, 0x0C, 0x0D, 0x0E, 0x20, 0x32, 0x34,
    0x35, 0x36, 0x3A, 0x3B, 0x3C, 0x3D, 0x3E, 0x3F, 0x54, 0x07,
];

// The calls that take a handle of a thread, an event or a file, and those that give one.
const HANDLE_CALLS: [u32; 20] = [
    0x07, 0x08, 0x09, 0x0A, 0x0B, 0x0C, 0x0D, 0x0E, 0x0F, 0x10, 0x20, 0x32, 0x34, 0x35, 0x36, 0x3B,
    0x0E, 0x0E, 0x0E, 0x10,
];

// The last six bits of the words of r-type that trap at nothing.
const REGISTER_FORMS: [u32; 11] = [
    0x04, 0x06, 0x07, 0x21, 0x23, 0x24, 0x25, 0x26, 0x27, 0x2A, 0x2B,
];

// mult, multu, div and divu.
const PRODUCTS: [u32; 4] = [0x18, 0x19, 0x1A, 0x1B];

// addiu, slti, sltiu, andi, ori and xori.
const IMMEDIATE_FORMS: [u32; 6] = [0x09, 0x0A, 0x0B, 0x0C, 0x0D, 0x0E];

// The loads and stores.
const ACCESSES: [u32; 12] = [
    0x20, 0x21, 0x22, 0x23, 0x24, 0x25, 0x26, 0x28, 0x29, 0x2A, 0x2B, 0x2E,
];

// beq, bne, blez and bgtz.
const BRANCHES: [u32; 4] = [0x04, 0x05, 0x06, 0x07];

// A word with an operation, two registers and 16 bits.
pub(crate) fn immediate(operation: u32, s: u32, t: u32, low: u32) -> u32 {
    operation << 26 | s << 21 | t << 16 | low & 0xFFFF
}

// A word of r-type with three registers.
pub(crate) fn register(s: u32, t: u32, d: u32, function: u32) -> u32 {
    s << 21 | t << 16 | d << 11 | function
}

// A program that grows piece by piece.
#[derive(Drop)]
pub(crate) struct Pieces {
    pub(crate) numbers: Numbers,
    words: Vec<u32>,
}

impl Pieces {
    // No piece yet.
    pub(crate) fn new(alloc: Global, seed: u32) -> Pieces {
        Pieces {
            numbers: Numbers::new(seed),
            words: Vec::new(alloc),
        }
    }

    // The words of all pieces, and behind them a jump to the first.
    pub(crate) fn words(mut self) -> Result<Vec<u32>, AllocError> {
        self.put(&[0x0800_4000, 0])?;
        Ok(self.words)
    }

    // Puts words behind the others.
    pub(crate) fn put(&mut self, words: &[u32]) -> Result<(), AllocError> {
        self.words.extend_from_slice(words)
    }

    // Any word.
    pub(crate) fn word(&mut self) -> Result<(), AllocError> {
        let word = self.numbers.any();
        self.put(&[word])
    }

    // Sets a register by lui and ori.
    pub(crate) fn set(&mut self, register: u32, value: u32) -> Result<(), AllocError> {
        self.put(&[
            immediate(0x0F, 0, register, value >> 16),
            immediate(0x0D, register, register, value),
        ])
    }

    // An instruction on registers.
    pub(crate) fn instruction(&mut self) -> Result<(), AllocError> {
        let s = self.numbers.below(32);
        let t = self.numbers.below(32);
        let d = self.numbers.below(32);
        let word = match self.numbers.below(8) {
            0 => register(s, t, 0, self.numbers.one_of(&PRODUCTS)),
            1 => register(0, 0, d, 0x10 | s & 2),
            2 => register(0, t, d, s << 6),
            3 => immediate(0x0F, 0, t, self.numbers.any()),
            4 | 5 => register(s, t, d, self.numbers.one_of(&REGISTER_FORMS)),
            _ => immediate(
                self.numbers.one_of(&IMMEDIATE_FORMS),
                s,
                t,
                self.numbers.any(),
            ),
        };
        self.put(&[word])
    }

    // A load or a store behind an address.
    pub(crate) fn access(&mut self) -> Result<(), AllocError> {
        let base = self.address() & 0xFFFF_FFFC;
        let register = self.numbers.below(32);
        let operation = self.numbers.one_of(&ACCESSES);
        let offset = match self.numbers.below(64) {
            0 => self.numbers.any(),
            _ => self.numbers.below(16) << 2,
        };
        self.set(8, base)?;
        self.put(&[immediate(operation, 8, register, offset)])
    }

    // A branch over a few words, and what stands in its slot.
    pub(crate) fn branch(&mut self) -> Result<(), AllocError> {
        let operation = self.numbers.one_of(&BRANCHES);
        let s = self.numbers.below(32);
        let t = if operation < 6 {
            self.numbers.below(32)
        } else {
            0
        };
        let over = self.numbers.below(12);
        self.put(&[immediate(operation, s, t, over)])?;
        self.instruction()
    }

    // A SYSCALL.
    pub(crate) fn system(&mut self) -> Result<(), AllocError> {
        let number = self.numbers.below(6);
        let number = if number == 3 { 2 } else { number };
        self.put(&[immediate(0x09, 0, 4, number), 0x0000_000C])
    }

    // A call by a gate, with the arguments in r4 to r7 that there are.
    pub(crate) fn call(&mut self, gate: u32, number: u32) -> Result<(), AllocError> {
        self.put(&[
            immediate(0x09, 0, 9, number),
            immediate(0x09, 0, 10, gate),
            register(10, 0, 31, 0x09),
            0,
        ])
    }

    // Any call, with any arguments.
    pub(crate) fn any_call(&mut self) -> Result<(), AllocError> {
        for register in 4..8u32 {
            let value = self.argument(register);
            self.set(register, value)?;
        }
        match self.numbers.below(256) {
            0 => {
                let number = self.numbers.any();
                self.call(GATE_A, number)
            }
            1..16 => {
                let number = self.numbers.below(2).wrapping_add(2);
                self.call(GATE_C, number)
            }
            16..128 => {
                let number = self.numbers.one_of(&CALLS_B);
                self.call(GATE_B, number)
            }
            _ => {
                let number = self.numbers.one_of(&CALLS_A);
                self.call(GATE_A, number)
            }
        }
    }

    // A call on threads, events or files, with any handle.
    pub(crate) fn handle_call(&mut self) -> Result<(), AllocError> {
        let number = self.numbers.one_of(&HANDLE_CALLS);
        let handle = match self.numbers.below(64) {
            0 => self.numbers.any(),
            1 => 0xFF00_0000 | self.numbers.below(8),
            _ if number == 0x0F || number == 0x10 => 0xFF00_0000 | self.numbers.below(4),
            2..40 => 0xF100_0000 | self.numbers.below(20),
            _ => self.numbers.below(18),
        };
        let place = self.aim();
        self.set(4, if number == 0x0E { place } else { handle })?;
        for register in 5..8u32 {
            let value = self.address();
            self.set(register, value)?;
        }
        self.call(GATE_B, number)
    }

    // The address of one of the program's words.
    pub(crate) fn aim(&mut self) -> u32 {
        BEGIN | self.numbers.below(AIMS) << 2
    }

    // An address that is user memory, or stands near an end of it.
    fn address(&mut self) -> u32 {
        match self.numbers.below(64) {
            0 => 0x801F_FF80 | self.numbers.below(0x80),
            1 => 0x1F80_0380 | self.numbers.below(0x80),
            2..10 => 0x1F80_0000 | self.numbers.below(0x300),
            10..14 => self.aim(),
            14..18 => 0xA010_0000 | self.numbers.below(0x1000),
            _ => 0x8010_0000 | self.numbers.below(0x1_0000),
        }
    }

    // An argument in a register: mostly an address in r4 and r5, and a small number in r6 and r7.
    fn argument(&mut self, register: u32) -> u32 {
        match self.numbers.below(64) {
            0 => self.odd_argument(),
            1..52 if register < 6 => self.address() & 0xFFFF_FFFC,
            52..56 if register < 6 => self.address(),
            56..60 if register < 6 => 0xF100_0000 | self.numbers.below(18),
            _ if register < 6 => 0,
            _ => self.numbers.below(0x40),
        }
    }

    // An argument that few calls take.
    fn odd_argument(&mut self) -> u32 {
        match self.numbers.below(8) {
            0 | 1 => self.numbers.any(),
            2 => 0xFFFF_FFFF - self.numbers.below(0x100),
            3 => 0xFF00_0000 | self.numbers.below(4),
            4 => 0xF200_0000 | self.numbers.below(4),
            5 => 1 << self.numbers.below(16),
            _ => self.numbers.below(0x40),
        }
    }
}
