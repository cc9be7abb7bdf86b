//! Where the routines stand, in the cached segment, in which the kernel runs.
use kern_layout::ranges::TEXT_CODE;
use kern_stay::places::CACHED;

/// The listing of strlen.
pub const STRLEN: u32 = CACHED + TEXT_CODE.from;

/// The listing that counts the bytes of user memory from an address on.
pub const ROOM: u32 = STRLEN + 0x80;

/// The listing of toupper.
pub const TOUPPER: u32 = ROOM + 0xC0;

/// The listing of tolower.
pub const TOLOWER: u32 = TOUPPER + 0x40;

/// The listing of strcpy.
pub const STRCPY: u32 = TOLOWER + 0x40;

/// The listing of strcat.
pub const STRCAT: u32 = STRCPY + 0x100;

/// The listing of strncat.
pub const STRNCAT: u32 = STRCAT + 0x100;

/// The listing of strncpy.
pub const STRNCPY: u32 = STRNCAT + 0x100;

/// The listing of strcmp.
pub const STRCMP: u32 = STRNCPY + 0x100;

/// The listing of strncmp.
pub const STRNCMP: u32 = STRCMP + 0x100;

/// The listing of strchr and index.
pub const STRCHR: u32 = STRNCMP + 0x100;

/// The listing of strrchr and rindex.
pub const STRRCHR: u32 = STRCHR + 0x80;

/// The listing that passes over a run of bytes, of a set or of none.
pub const SKIP: u32 = STRRCHR + 0x80;

/// The listing of strpbrk.
pub const STRPBRK: u32 = SKIP + 0xC0;

/// The listing of strspn.
pub const STRSPN: u32 = STRPBRK + 0x80;

/// The listing of strcspn.
pub const STRCSPN: u32 = STRSPN + 0x80;

/// The listing of strtok.
pub const STRTOK: u32 = STRCSPN + 0x80;

/// The listing of strstr.
pub const STRSTR: u32 = STRTOK + 0x100;

/// The listing of abs and labs.
pub const ABS: u32 = STRSTR + 0x100;

/// The listing that passes over blanks and a sign.
pub const BLANKS: u32 = ABS + 0x40;

/// The listing that chooses a number's base by its prefix.
pub const PREFIX: u32 = BLANKS + 0x80;

/// The listing that takes the digits of a number.
pub const DIGITS: u32 = PREFIX + 0xC0;

/// The listing of strtol and strtoul.
pub const STRTOL: u32 = DIGITS + 0xC0;

/// The listing of atoi and atol.
pub const ATOI: u32 = STRTOL + 0xC0;
