//! The ranges of the kernel's 64 KB, by physical addresses. The code runs in the cached segment, 80000000h above them.
//! That the gates, the tables and the control blocks stand there is after PSX-SPX, Kernel (BIOS); the layout is this project's own.
ghost use Rattle.std.specs.Prelude.{◌≡◌, ℕ, ◌<◌, ◌≤◌, IsTrue};
ghost use Rattle.kern_layout.specs.Ranges.{RangesApart, RangesBelowUser};
ghost use Rattle.kern_layout.specs.declared.ranges.TheConstants.{RANGES};

/// The bytes from an address on, up to and without another.
#[derive(Clone, Copy, PartialEq, Eq, Debug)]
pub struct Range {
    /// The first byte's address.
    pub from: u32,
    /// The address behind the last byte.
    pub to: u32,
}

/// The exception vector.
pub const VECTOR: Range = Range {
    from: 0x80,
    to: 0xA0,
};

/// The gate of the calls of table A, one word.
pub const GATE_A: Range = Range {
    from: 0xA0,
    to: 0xA4,
};

/// The gate of the calls of table B, one word.
pub const GATE_B: Range = Range {
    from: 0xB0,
    to: 0xB4,
};

/// The gate of the calls of table C, one word.
pub const GATE_C: Range = Range {
    from: 0xC0,
    to: 0xC4,
};

/// The gate of the program's return, one word.
pub const GATE_DONE: Range = Range {
    from: 0xD0,
    to: 0xD4,
};

/// The gate of a callback's return, one word.
pub const GATE_BACK: Range = Range {
    from: 0xE0,
    to: 0xE4,
};

/// Table A: a routine's address for each number from 0 to BFh, 0 where the number isn't served.
pub const TABLE_A: Range = Range {
    from: 0x200,
    to: 0x500,
};

/// Table C: for each number from 0 to 1Fh.
pub const TABLE_C: Range = Range {
    from: 0x674,
    to: 0x6F4,
};

/// Table B: for each number from 0 to 5Eh.
pub const TABLE_B: Range = Range {
    from: 0x874,
    to: 0x9F0,
};

/// The code of the entry: saving, dispatch, LEAVE, WORK and the four tested accesses.
pub const ENTRY_CODE: Range = Range {
    from: 0x1000,
    to: 0x2000,
};

/// The code of the thread calls.
pub const THREAD_CODE: Range = Range {
    from: 0x2000,
    to: 0x2800,
};

/// The code of the event calls.
pub const EVENT_CODE: Range = Range {
    from: 0x2800,
    to: 0x3800,
};

/// The code of the counter calls.
pub const TIMER_CODE: Range = Range {
    from: 0x3800,
    to: 0x3C00,
};

/// The code of the memory calls.
pub const MEMORY_CODE: Range = Range {
    from: 0x3C00,
    to: 0x4C00,
};

/// The code of the text calls.
pub const TEXT_CODE: Range = Range {
    from: 0x4C00,
    to: 0x6400,
};

/// The code of printf.
pub const PRINTF_CODE: Range = Range {
    from: 0x6400,
    to: 0x7C00,
};

/// The code of the heap calls.
pub const HEAP_CODE: Range = Range {
    from: 0x7C00,
    to: 0x8C00,
};

/// The code of the file calls.
pub const FILE_CODE: Range = Range {
    from: 0x8C00,
    to: 0xA000,
};

/// Kept for the code of memory cards.
pub const CARD_CODE: Range = Range {
    from: 0xA000,
    to: 0xB000,
};

/// The thread control blocks, room for 16.
pub const THREADS: Range = Range {
    from: 0xB000,
    to: 0xBC00,
};

/// The event control blocks, room for 64.
pub const EVENTS: Range = Range {
    from: 0xBC00,
    to: 0xC300,
};

/// The frames of callbacks, 8.
pub const FRAMES: Range = Range {
    from: 0xC300,
    to: 0xCF00,
};

/// The four chains.
pub const CHAINS: Range = Range {
    from: 0xCF00,
    to: 0xD000,
};

/// The linked table of the heap, 512 entries.
pub const HEAP_TABLE: Range = Range {
    from: 0xD000,
    to: 0xE800,
};

/// The modes of the 16 files.
pub const FILES: Range = Range {
    from: 0xE800,
    to: 0xE900,
};

/// The line of gets, one byte each.
pub const LINE: Range = Range {
    from: 0xE900,
    to: 0xEA00,
};

/// The variables.
pub const VARIABLES: Range = Range {
    from: 0xEA00,
    to: 0xEB00,
};

/// The kernel's stack. It begins with the work area.
pub const STACK: Range = Range {
    from: 0xEB00,
    to: 0xF000,
};

/// All ranges, in rising order.
pub const RANGES: [Range; 28] = [
    VECTOR,
    GATE_A,
    GATE_B,
    GATE_C,
    GATE_DONE,
    GATE_BACK,
    TABLE_A,
    TABLE_C,
    TABLE_B,
    ENTRY_CODE,
    THREAD_CODE,
    EVENT_CODE,
    TIMER_CODE,
    MEMORY_CODE,
    TEXT_CODE,
    PRINTF_CODE,
    HEAP_CODE,
    FILE_CODE,
    CARD_CODE,
    THREADS,
    EVENTS,
    FRAMES,
    CHAINS,
    HEAP_TABLE,
    FILES,
    LINE,
    VARIABLES,
    STACK,
];

/// No two ranges have a byte in common, and no range has a byte of user memory.
pub fn ranges_apart()
    ensures apart { RangesApart RANGES }
    ensures below_user { RangesBelowUser RANGES }
{}
