//! The chains and I_MASK, as the listing of an interrupt reaches them: from a register that holds the upper half of an address, by the lower half.
use kern_layout::places::{CHAIN_COUNT, CHAIN_ELEMENTS, CHAIN_SIZE};
use kern_layout::ranges::CHAINS;
use psx_base::ports::I_MASK;

/// The lower half of I_MASK.
pub const MASK_PORT: u16 = (I_MASK % 0x1_0000) as u16;

/// How many elements chain 0 has.
pub const COUNT: u16 = (CHAINS.from + CHAIN_COUNT) as u16;

/// The elements of chain 0.
pub const ELEMENTS: u16 = (CHAINS.from + CHAIN_ELEMENTS) as u16;

/// The bytes from a chain to the next one.
pub const SIZE: u16 = CHAIN_SIZE as u16;

/// The bit of the line of VBLANK, 0.
pub const BLANK: u16 = 1;

/// The bits of the lines of the counters 0 to 2, 4 to 6.
pub const COUNTER_0: u16 = 1 << 4;

pub const COUNTER_1: u16 = 1 << 5;

pub const COUNTER_2: u16 = 1 << 6;
