//! Where the routines stand, in the cached segment, in which the kernel runs, and the console's ports and the kernel's data, as the listings reach them.
use kern_layout::places::ERRNO;
use kern_layout::ranges::{FILE_CODE, FILES};
use kern_stay::places::CACHED;
use psx_base::ports::{CONSOLE_DATA, CONSOLE_STATUS};

/// The listing of puts.
pub const PUTS: u32 = CACHED + FILE_CODE.from;

/// The loop of puts.
pub const PUTS_LOOP: u32 = PUTS + 0x40;

/// The listing that counts the bytes of user memory from an address on.
pub const ROOM: u32 = PUTS + 0x80;

/// The listing of putchar.
pub const PUTCHAR: u32 = PUTS + 0x140;

/// The listing of GetLastError.
pub const GET_LAST_ERROR: u32 = PUTCHAR + 0x40;

/// The listing of putc.
pub const PUTC: u32 = GET_LAST_ERROR + 0x40;

/// The listing of close.
pub const CLOSE: u32 = PUTC + 0x80;

/// The listing of write.
pub const WRITE: u32 = CLOSE + 0x80;

/// The loop of write.
pub const WRITE_LOOP: u32 = WRITE + 0xC0;

/// The listing of open.
pub const OPEN: u32 = WRITE_LOOP + 0x40;

/// The listing of getchar.
pub const GETCHAR: u32 = OPEN + 0x100;

/// The listing of getc.
pub const GETC: u32 = GETCHAR + 0x40;

/// The listing of read.
pub const READ: u32 = GETC + 0x80;

/// The loop of read.
pub const READ_LOOP: u32 = READ + 0xC0;

/// The listing of gets.
pub const GETS: u32 = READ_LOOP + 0x80;

/// The loop of gets.
pub const GETS_LOOP: u32 = GETS + 0x80;

/// The upper half of the ports' addresses.
pub const PORTS: u16 = (CONSOLE_DATA / 0x1_0000) as u16;

/// The lower half of the console's data port.
pub const PORT_CONSOLE: u16 = (CONSOLE_DATA % 0x1_0000) as u16;

/// The lower half of the console's status port.
pub const PORT_STATUS: u16 = (CONSOLE_STATUS % 0x1_0000) as u16;

/// The upper half of the data's addresses, 1 more since the lower half counts as negative.
pub const DATA: u16 = 0x8001;

/// The lower half of the first file's mode.
pub const MODES: u16 = FILES.from as u16;

/// That of the last error.
pub const LAST_ERROR: u16 = ERRNO as u16;
