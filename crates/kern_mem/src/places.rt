//! Where the routines stand, in the cached segment, in which the kernel runs, and the kernel's data as the listings reach it.
use kern_layout::places::{SAVED_REGISTERS, WORK_AREA};
use kern_layout::ranges::MEMORY_CODE;
use kern_stay::places::CACHED;

/// The listing of memset.
pub const MEMSET: u32 = CACHED + MEMORY_CODE.from;

/// The listing of memchr.
pub const MEMCHR: u32 = MEMSET + 0x80;

/// The listing of rand.
pub const RAND: u32 = MEMCHR + 0xC0;

/// The listing of srand.
pub const SRAND: u32 = RAND + 0x40;

/// The listing that counts the bytes of user memory from an address on.
pub const ROOM: u32 = SRAND + 0x40;

/// The listing of memcpy.
pub const MEMCPY: u32 = ROOM + 0xC0;

/// The listing of memcmp and bcmp.
pub const MEMCMP: u32 = MEMCPY + 0x100;

/// The listing of memmove.
pub const MEMMOVE: u32 = MEMCMP + 0x100;

/// The listing of bcopy.
pub const BCOPY: u32 = MEMMOVE + 0x100;

/// The listing of bzero.
pub const BZERO: u32 = BCOPY + 0x100;

/// The listing of setjmp.
pub const SETJMP: u32 = BZERO + 0xC0;

/// The listing of longjmp.
pub const LONGJMP: u32 = SETJMP + 0x100;

/// The listing of FlushCache.
pub const FLUSH_CACHE: u32 = LONGJMP + 0xC0;

/// The upper half of the data's addresses, 1 more since the lower half counts as negative.
pub const DATA: u16 = 0x8001;

/// Where the caller's r0 would stand in the work area, the lower half; register n is 4 * n behind it.
pub const SAVED: u16 = (WORK_AREA + SAVED_REGISTERS) as u16;
