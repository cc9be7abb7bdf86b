//! The work area and the ports, as the listings reach them: from a register that holds the upper half of an address, by the lower half.
use kern_layout::places::{SAVED_HI, SAVED_LO, SAVED_PC, SAVED_REGISTERS, SAVED_SR, WORK_AREA};
use psx_base::ports::{HALT, HALT_A, HALT_B, HALT_C};

/// The upper half of the work area's address in the cached segment, 1 more since the lower half counts as negative.
pub const AREA: u16 = 0x8001;

/// The lower half of the work area's address.
pub const AREA_LOW: u16 = WORK_AREA as u16;

/// Where the work area has r0's place; register n is 4 * n behind it.
pub const REGISTERS: u16 = (WORK_AREA + SAVED_REGISTERS) as u16;

/// Where it has the address at which the context goes on.
pub const PC: u16 = (WORK_AREA + SAVED_PC) as u16;

/// Where it has HI.
pub const HI: u16 = (WORK_AREA + SAVED_HI) as u16;

/// Where it has LO.
pub const LO: u16 = (WORK_AREA + SAVED_LO) as u16;

/// Where it has SR.
pub const SR: u16 = (WORK_AREA + SAVED_SR) as u16;

/// The upper half of the ports' addresses.
pub const PORTS: u16 = (HALT / 0x1_0000) as u16;

/// The lower half of the halt's first word.
pub const PORT_A: u16 = (HALT_A % 0x1_0000) as u16;

/// The lower half of the halt's second word.
pub const PORT_B: u16 = (HALT_B % 0x1_0000) as u16;

/// The lower half of the halt's third word.
pub const PORT_C: u16 = (HALT_C % 0x1_0000) as u16;

/// The lower half of the halt port.
pub const PORT_HALT: u16 = (HALT % 0x1_0000) as u16;

/// The code of a halt: the program's end.
pub const CODE_EXIT: u16 = 1;

/// An exception that isn't served.
pub const CODE_EXCEPTION: u16 = 2;

/// A call that isn't served.
pub const CODE_UNSERVED: u16 = 3;

/// An address that isn't user memory.
pub const CODE_BAD_POINTER: u16 = 4;

/// A handle that names no thread.
pub const CODE_BAD_THREAD: u16 = 5;

/// A frame too many.
pub const CODE_DEEP: u16 = 6;

/// A callback's return where no callback was called.
pub const CODE_BAD_RETURN: u16 = 7;
