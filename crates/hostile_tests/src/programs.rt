//! Random programs of a kind, each from a seed, and random schedules.
use crate::numbers::Numbers;
use crate::pieces::{GATE_B, GATE_C, Pieces, immediate, register};
use std::alloc::{AllocError, Global};

// What a program is made of.
#[derive(Clone, Copy, PartialEq, Eq, Debug)]
pub(crate) enum Kind {
    // Any words among instructions and calls.
    Words,
    // Instructions, accesses and branches, few calls.
    Instructions,
    // Calls of any number with any arguments.
    Calls,
    // Calls with any handles.
    Handles,
    // Functions of events and of the chains that stand anywhere, deliveries and interrupts.
    Callbacks,
}

// A program: 96 pieces of its kind, again and again.
pub(crate) fn program_of(alloc: Global, kind: Kind, seed: u32) -> Result<Vec<u32>, AllocError> {
    let mut pieces = Pieces::new(alloc, seed);
    match kind {
        Kind::Handles => open_all(&mut pieces)?,
        Kind::Callbacks => open_lines(&mut pieces)?,
        _ => {}
    }
    for _ in 0..96u32 {
        match kind {
            Kind::Words => any_words(&mut pieces)?,
            Kind::Instructions => plain(&mut pieces)?,
            Kind::Calls => calling(&mut pieces)?,
            Kind::Handles => pieces.handle_call()?,
            Kind::Callbacks => called_back(&mut pieces)?,
        }
    }
    pieces.words()
}

// A piece of a program that has any word now and then.
fn any_words(pieces: &mut Pieces) -> Result<(), AllocError> {
    match pieces.numbers.below(16) {
        0 => pieces.word(),
        1..8 => pieces.any_call(),
        _ => pieces.instruction(),
    }
}

// A piece of a program that seldom calls.
fn plain(pieces: &mut Pieces) -> Result<(), AllocError> {
    match pieces.numbers.below(256) {
        0 => pieces.word(),
        1..32 => pieces.any_call(),
        32..48 => pieces.system(),
        48..112 => pieces.access(),
        112..144 => pieces.branch(),
        _ => pieces.instruction(),
    }
}

// A piece of a program that often calls.
fn calling(pieces: &mut Pieces) -> Result<(), AllocError> {
    match pieces.numbers.below(8) {
        0 => pieces.instruction(),
        _ => pieces.any_call(),
    }
}

// Three threads that begin somewhere in the program, and four events that are enabled.
fn open_all(pieces: &mut Pieces) -> Result<(), AllocError> {
    for _ in 0..3u32 {
        let begin = pieces.aim();
        pieces.set(4, begin)?;
        pieces.set(5, 0x801F_0000)?;
        pieces.call(GATE_B, 0x0E)?;
    }
    for _ in 0..4u32 {
        pieces.set(4, 0xF200_0003)?;
        pieces.set(5, 2)?;
        pieces.set(6, 0x2000)?;
        pieces.call(GATE_B, 0x08)?;
        pieces.put(&[register(2, 0, 4, 0x21)])?;
        pieces.call(GATE_B, 0x0C)?;
    }
    open_lines(pieces)
}

// Lets the lines of the vertical blank and of the counters through.
fn open_lines(pieces: &mut Pieces) -> Result<(), AllocError> {
    for line in 0..4u32 {
        pieces.put(&[immediate(0x09, 0, 4, line)])?;
        pieces.call(GATE_B, 0x04)?;
    }
    Ok(())
}

// A piece of a program that is called back.
fn called_back(pieces: &mut Pieces) -> Result<(), AllocError> {
    match pieces.numbers.below(64) {
        0..10 => open_function(pieces),
        10..14 => enqueue(pieces),
        14..28 => deliver(pieces),
        28 => pieces.put(&[immediate(0x09, 0, 31, 0xE0), register(31, 0, 0, 0x08), 0]),
        29..33 => pieces.any_call(),
        33..36 => pieces.system(),
        _ => pieces.instruction(),
    }
}

// Where a function begins: in the program, at a gate, or anywhere.
fn function(pieces: &mut Pieces) -> u32 {
    match pieces.numbers.below(64) {
        0 => pieces.numbers.any(),
        1 => 0xA0 | pieces.numbers.below(5) << 4,
        2 => pieces.aim() | pieces.numbers.below(4),
        3..44 => 0xE0,
        _ => pieces.aim(),
    }
}

// The class and the spec of an event, in r4 and r5.
fn name_event(pieces: &mut Pieces) -> Result<(), AllocError> {
    let class = match pieces.numbers.below(4) {
        0 => 0xF000_0010,
        _ => 0xF200_0000 | pieces.numbers.below(4),
    };
    pieces.set(4, class)?;
    pieces.set(5, if class == 0xF000_0010 { 0x4000 } else { 2 })
}

// Opens an event with a function, and enables it.
fn open_function(pieces: &mut Pieces) -> Result<(), AllocError> {
    name_event(pieces)?;
    let begin = function(pieces);
    pieces.set(6, 0x1000)?;
    pieces.set(7, begin)?;
    pieces.call(GATE_B, 0x08)?;
    pieces.put(&[register(2, 0, 4, 0x21)])?;
    pieces.call(GATE_B, 0x0C)
}

// Puts an element with two functions into a chain, or takes one out.
fn enqueue(pieces: &mut Pieces) -> Result<(), AllocError> {
    let element = 0x8018_0000 | pieces.numbers.below(16) << 4;
    pieces.set(5, element)?;
    for offset in [4, 8] {
        let begin = function(pieces);
        pieces.set(8, begin)?;
        pieces.put(&[immediate(0x2B, 5, 8, offset)])?;
    }
    let chain = pieces.numbers.below(5);
    pieces.put(&[immediate(0x09, 0, 4, chain)])?;
    let number = if pieces.numbers.below(4) == 0 { 3 } else { 2 };
    pieces.call(GATE_C, number)
}

// Delivers an event.
fn deliver(pieces: &mut Pieces) -> Result<(), AllocError> {
    name_event(pieces)?;
    pieces.call(GATE_B, 0x07)
}

// The digits of a number of five digits.
fn put_digits(text: &mut Vec<u8>, number: u32) -> Result<(), AllocError> {
    for digit in [
        number / 10_000,
        number / 1_000,
        number / 100,
        number / 10,
        number,
    ] {
        text.extend_from_slice(&[b"0123456789"[(digit % 10) as usize]])?;
    }
    Ok(())
}

// A schedule of sixteen entries behind the program's begin, which raise lines and give bytes.
pub(crate) fn schedule_of(alloc: Global, seed: u32) -> Result<Vec<u8>, AllocError> {
    let mut numbers = Numbers::new(seed);
    let mut text = Vec::new(alloc);
    let mut count = 39_000u32;
    for _ in 0..16u32 {
        count = count.wrapping_add(numbers.below(2_000));
        put_digits(&mut text, count)?;
        match numbers.below(8) {
            0 => text.extend_from_slice(b" byte 0A\n")?,
            1 | 2 => text.extend_from_slice(b" byte 41\n")?,
            _ => {
                let line = b"0456012356789"[numbers.below(13) as usize];
                text.extend_from_slice(b" line ")?;
                text.extend_from_slice(&[line, b'\n'])?;
            }
        }
    }
    Ok(text)
}
