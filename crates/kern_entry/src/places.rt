//! Where the listings of the entry stand, in the cached segment, in which the kernel runs.
use kern_layout::ranges::{ENTRY_CODE, VECTOR as VECTOR_RANGE};
use kern_stay::places;

/// The first address of the cached segment.
pub const CACHED: u32 = places::CACHED;

/// The exception vector.
pub const VECTOR: u32 = CACHED + VECTOR_RANGE.from;

/// Saves the context.
pub const SAVE: u32 = CACHED + ENTRY_CODE.from;

/// Goes on by the cause of the entry.
pub const CAUSES: u32 = SAVE + 0xC0;

/// An interrupt, with its context in the work area.
pub const INTERRUPTS: u32 = SAVE + 0x180;

/// A call by the gate A0h.
pub const CALL_A: u32 = SAVE + 0x2C0;

/// A call by the gate B0h.
pub const CALL_B: u32 = SAVE + 0x310;

/// A call by the gate C0h.
pub const CALL_C: u32 = SAVE + 0x360;

/// Stops for a call that isn't served.
pub const UNSERVED: u32 = SAVE + 0x3B0;

/// Stops for an exception.
pub const EXCEPTION: u32 = SAVE + 0x3D0;

/// Where a routine arrives with its answer in r2.
pub const LEAVE: u32 = places::LEAVE;

/// Where a SYSCALL arrives that goes on behind itself.
pub const BEHIND: u32 = LEAVE + 0x40;

/// Takes up the context of the work area.
pub const RESUME: u32 = LEAVE + 0x80;

/// Copies half a context.
pub const COPY_HALF: u32 = LEAVE + 0x130;

/// Copies words of the kernel's data.
pub const COPY: u32 = LEAVE + 0x1D0;

/// The end of a program, with its code in r4.
pub const EXIT: u32 = LEAVE + 0x200;

/// The return of a program by the gate D0h.
pub const DONE: u32 = LEAVE + 0x220;

/// The return of a callback by the gate E0h.
pub const BACK: u32 = LEAVE + 0x240;

/// A SYSCALL outside the gates.
pub const SYSCALLS: u32 = LEAVE + 0x300;

/// A SYSCALL that delivers an event.
pub const DELIVER: u32 = SYSCALLS + 0xA0;

/// Stops for an address in r8 that isn't user memory.
pub const BAD_POINTER: u32 = places::BAD_POINTER;

/// Stops for a handle in r8 that names no thread.
pub const BAD_THREAD: u32 = places::BAD_THREAD;

/// Stops for a frame too many.
pub const DEEP: u32 = places::DEEP;

/// Stops for the return of a function that the kernel hasn't called.
pub const BAD_RETURN: u32 = places::BAD_RETURN;

/// Does the tasks before a context is taken up.
pub const WORK: u32 = places::WORK;

/// The functions of elements, as WORK calls it.
pub const ELEMENTS: u32 = WORK + 0x100;

/// A scan, as WORK calls it.
pub const SCAN: u32 = WORK + 0x1C0;

/// Keeps a frame and calls a function.
pub const PUSH: u32 = places::PUSH;

/// Takes up the context where no task is left.
pub const TAKE_UP: u32 = places::TAKE_UP;

/// The listing that reads a byte of user memory.
pub const READ_BYTE: u32 = places::READ_BYTE;

/// The listing that writes a byte of user memory.
pub const WRITE_BYTE: u32 = places::WRITE_BYTE;

/// The listing that reads a word of user memory.
pub const READ_WORD: u32 = places::READ_WORD;

/// The listing that writes a word of user memory.
pub const WRITE_WORD: u32 = places::WRITE_WORD;
