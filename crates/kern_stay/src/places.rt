//! Where a routine's words end, and the listings that it may call, in the cached segment, in which the kernel runs.
use kern_layout::places::{
    BAD_POINTER as BAD_POINTER_PLACE, BAD_RETURN as BAD_RETURN_PLACE,
    BAD_THREAD as BAD_THREAD_PLACE, DEEP as DEEP_PLACE, LEAVE as LEAVE_PLACE, PUSH as PUSH_PLACE,
    TAKE_UP as TAKE_UP_PLACE, TESTED_READ_BYTE, TESTED_READ_WORD, TESTED_WRITE_BYTE,
    TESTED_WRITE_WORD, WAIT as WAIT_PLACE, WORK as WORK_PLACE,
};

/// The first address of the cached segment.
pub const CACHED: u32 = 0x8000_0000;

/// Where a routine arrives with its answer in r2.
pub const LEAVE: u32 = CACHED + LEAVE_PLACE;

/// Where a call arrives that waits: the context of the work area is taken up as it is.
pub const WAIT: u32 = CACHED + WAIT_PLACE;

/// Where a routine arrives with an address in r8 that isn't user memory.
pub const BAD_POINTER: u32 = CACHED + BAD_POINTER_PLACE;

/// Where a routine arrives with a handle in r8 that names no thread.
pub const BAD_THREAD: u32 = CACHED + BAD_THREAD_PLACE;

/// Where a stay arrives that needs a frame more than there is room for, with the address of its caller in r31.
pub const DEEP: u32 = CACHED + DEEP_PLACE;

/// Where the return of a function arrives that the kernel hasn't called.
pub const BAD_RETURN: u32 = CACHED + BAD_RETURN_PLACE;

/// Where a stay arrives with tasks to do, before the context of the work area is taken up: r2 has the answer of the function that has returned, and r31 what a stop names.
pub const WORK: u32 = CACHED + WORK_PLACE;

/// Where a stay arrives that calls the function in r16 with the argument in r17: the work area has the context and the tasks that will be left, and r18 what a stop names.
pub const PUSH: u32 = CACHED + PUSH_PLACE;

/// Where a stay arrives that has no task left, and takes up the context of the work area.
pub const TAKE_UP: u32 = CACHED + TAKE_UP_PLACE;

/// The listing that reads a byte of user memory.
pub const READ_BYTE: u32 = CACHED + TESTED_READ_BYTE;

/// The listing that writes a byte of user memory.
pub const WRITE_BYTE: u32 = CACHED + TESTED_WRITE_BYTE;

/// The listing that reads a word of user memory.
pub const READ_WORD: u32 = CACHED + TESTED_READ_WORD;

/// The listing that writes a word of user memory.
pub const WRITE_WORD: u32 = CACHED + TESTED_WRITE_WORD;
