//! Where the listings of printf stand, in the cached segment, in which the kernel runs, and the console's port, as they reach it.
use kern_layout::ranges::PRINTF_CODE;
use kern_stay::places::CACHED;
use psx_base::ports::CONSOLE_DATA;

/// The listing of printf, at which it begins.
pub const PRINTF: u32 = CACHED + PRINTF_CODE.from;

/// The listing that takes a byte of the format outside of a conversion.
pub const FORMAT: u32 = PRINTF + 0x80;

/// The listing that takes a byte of the format within a conversion.
pub const CONVERSION: u32 = FORMAT + 0x80;

/// The listing for a byte that may be a flag.
pub const FLAG: u32 = CONVERSION + 0x80;

/// The listing for a byte that may be a digit of the width, or the point.
pub const WIDTH: u32 = FLAG + 0x40;

/// The listing for a byte that may be a digit of the precision.
pub const PRECISION: u32 = WIDTH + 0x100;

/// The listing for a byte that may be an `l`.
pub const LENGTH: u32 = PRECISION + 0x80;

/// The listing for a byte that ends a conversion.
pub const KIND: u32 = LENGTH + 0x40;

/// The listing that takes an argument.
pub const ARGUMENT: u32 = KIND + 0x100;

/// The listing that takes a number's sign.
pub const NUMBER: u32 = ARGUMENT + 0x80;

/// The listing that says how many digits a number is to have at least.
pub const FILL: u32 = NUMBER + 0x40;

/// The listing that counts the digits of a number.
pub const COUNT: u32 = FILL + 0x80;

/// The listing that says how many zeros stand before the digits.
pub const ZEROS: u32 = COUNT + 0x80;

/// The listing of an argument that is a byte.
pub const BYTE: u32 = ZEROS + 0x40;

/// The listing of an argument that is a text.
pub const TEXT: u32 = BYTE + 0x40;

/// The listing of a text at 0.
pub const NULL_TEXT: u32 = TEXT + 0x80;

/// The listing that measures a text.
pub const MEASURE: u32 = NULL_TEXT + 0x80;

/// The listing that says how many spaces stand on either side.
pub const PADDING: u32 = MEASURE + 0x80;

/// The listing that writes the spaces on the left.
pub const LEFT: u32 = PADDING + 0x80;

/// The listing that writes a byte, and the zeros before the digits.
pub const SIGN: u32 = LEFT + 0x40;

/// The listing that writes the digits.
pub const DIGITS: u32 = SIGN + 0x80;

/// The listing that writes the bytes of a text.
pub const TEXT_BYTES: u32 = DIGITS + 0x80;

/// The listing that writes the bytes that stand for a text at 0.
pub const NULL_BYTES: u32 = TEXT_BYTES + 0x40;

/// The listing that writes the spaces on the right.
pub const RIGHT: u32 = NULL_BYTES + 0x40;

/// The listing that counts the bytes of user memory from an address on.
pub const ROOM: u32 = RIGHT + 0x40;

/// The upper half of the listings' addresses.
pub const CODE: u16 = (PRINTF / 0x1_0000) as u16;

/// The lower half of FLAG.
pub const FLAG_LOW: u16 = (FLAG % 0x1_0000) as u16;

/// The lower half of WIDTH.
pub const WIDTH_LOW: u16 = (WIDTH % 0x1_0000) as u16;

/// The lower half of PRECISION.
pub const PRECISION_LOW: u16 = (PRECISION % 0x1_0000) as u16;

/// The lower half of LENGTH.
pub const LENGTH_LOW: u16 = (LENGTH % 0x1_0000) as u16;

/// The lower half of NUMBER.
pub const NUMBER_LOW: u16 = (NUMBER % 0x1_0000) as u16;

/// The lower half of BYTE.
pub const BYTE_LOW: u16 = (BYTE % 0x1_0000) as u16;

/// The lower half of TEXT.
pub const TEXT_LOW: u16 = (TEXT % 0x1_0000) as u16;

/// The lower half of SIGN.
pub const SIGN_LOW: u16 = (SIGN % 0x1_0000) as u16;

/// The lower half of TEXT_BYTES.
pub const TEXT_BYTES_LOW: u16 = (TEXT_BYTES % 0x1_0000) as u16;

/// The lower half of NULL_BYTES.
pub const NULL_BYTES_LOW: u16 = (NULL_BYTES % 0x1_0000) as u16;

/// The upper half of the ports' addresses.
pub const PORTS: u16 = (CONSOLE_DATA / 0x1_0000) as u16;

/// The lower half of the console's data port.
pub const PORT_CONSOLE: u16 = (CONSOLE_DATA % 0x1_0000) as u16;
