//! The places inside the blocks of the kernel's 64 KB, the variables, and the places in the code at which routines arrive or which they call.
//! Offsets are in bytes from the block's address; addresses are physical.
//! The control blocks of threads and events are after PSX-SPX, Kernel (BIOS), Thread Functions and Event Functions; the rest is this project's own.
//! These are the layout's numbers: the definitions in specs/ read them.
ghost use Rattle.std.specs.Prelude.{◌≡◌, ◌+◌, ◌*◌, ◌<◌, ◌≤◌};

use crate::ranges::{CHAINS, ENTRY_CODE, EVENTS, FILES, FRAMES, HEAP_TABLE, STACK, THREADS};

/// How many thread control blocks there is room for.
pub const THREAD_BLOCKS: u32 = 16;

/// The bytes of a thread control block. Block n stands at `THREADS.from + n * THREAD_SIZE`.
pub const THREAD_SIZE: u32 = 0xC0;

/// In a thread control block: its status.
pub const THREAD_STATUS: u32 = 0;

/// In a thread control block, a frame and the work area: where r0 would stand; register n is at `SAVED_REGISTERS + 4 * n`.
pub const SAVED_REGISTERS: u32 = 8;

/// Likewise: the address at which the context goes on, EPC.
pub const SAVED_PC: u32 = 0x88;

/// Likewise: HI.
pub const SAVED_HI: u32 = 0x8C;

/// Likewise: LO.
pub const SAVED_LO: u32 = 0x90;

/// Likewise: SR as the exception left it, 404h with interrupts on and 400h with interrupts off.
pub const SAVED_SR: u32 = 0x94;

/// In a thread control block: Cause. The kernel doesn't look at it.
pub const THREAD_CAUSE: u32 = 0x98;

/// The status of a free thread control block.
pub const THREAD_FREE: u32 = 0x1000;

/// The status of a used thread control block.
pub const THREAD_USED: u32 = 0x4000;

/// How many event control blocks there is room for.
pub const EVENT_BLOCKS: u32 = 64;

/// The bytes of an event control block. Block i stands at `EVENTS.from + i * EVENT_SIZE`.
pub const EVENT_SIZE: u32 = 0x1C;

/// In an event control block: the class.
pub const EVENT_CLASS: u32 = 0;

/// In an event control block: the status.
pub const EVENT_STATUS: u32 = 4;

/// In an event control block: the spec.
pub const EVENT_SPEC: u32 = 8;

/// In an event control block: the mode.
pub const EVENT_MODE: u32 = 0xC;

/// In an event control block: the function's address, or 0.
pub const EVENT_FUNCTION: u32 = 0x10;

/// The status of a free event.
pub const EVENT_FREE: u32 = 0;

/// The status of an event that is opened and not enabled.
pub const EVENT_DISABLED: u32 = 0x1000;

/// The status of an event that is waited for.
pub const EVENT_BUSY: u32 = 0x2000;

/// The status of an event that came.
pub const EVENT_READY: u32 = 0x4000;

/// How many frames there is room for.
pub const FRAME_BLOCKS: u32 = 8;

/// The bytes of a frame. Frame n stands at `FRAMES.from + n * FRAME_SIZE`, the outermost first.
pub const FRAME_SIZE: u32 = 0x180;

/// In a frame: by what its tasks begin.
pub const FRAME_KIND: u32 = 0x98;

/// In a frame: the element of a second function, or the class of a scan.
pub const FRAME_FIRST: u32 = 0x9C;

/// In a frame: the spec of a scan.
pub const FRAME_SPEC: u32 = 0xA0;

/// In a frame: the event's number from which a scan goes on.
pub const FRAME_EVENT: u32 = 0xA4;

/// In a frame: how many elements are left.
pub const FRAME_ELEMENT_COUNT: u32 = 0xA8;

/// In a frame: how many lines are left.
pub const FRAME_LINE_COUNT: u32 = 0xAC;

/// In a frame: the lines that are left, room for 4, the first one last.
pub const FRAME_LINES: u32 = 0xB0;

/// In a frame: the elements that are left, room for 32, the first one last.
pub const FRAME_ELEMENTS: u32 = 0x100;

/// The kind of a frame whose tasks begin with an element or a line, or are none.
pub const KIND_NONE: u32 = 0;

/// The kind of a frame whose tasks begin with the second function of an element.
pub const KIND_SECOND: u32 = 1;

/// The kind of a frame whose tasks begin with a scan.
pub const KIND_SCAN: u32 = 2;

/// The work area: the entry saves the context there, and WORK keeps its tasks there.
pub const WORK_AREA: u32 = 0xEB00;

/// How many chains there are.
pub const CHAIN_BLOCKS: u32 = 4;

/// The bytes of a chain. Chain p stands at `CHAINS.from + p * CHAIN_SIZE`.
pub const CHAIN_SIZE: u32 = 0x40;

/// In a chain: how many elements it has.
pub const CHAIN_COUNT: u32 = 0;

/// In a chain: its elements, room for 8, the head last.
pub const CHAIN_ELEMENTS: u32 = 4;

/// How many entries the heap table has.
pub const HEAP_ENTRIES: u32 = 512;

/// The bytes of an entry of the heap table.
pub const HEAP_ENTRY_SIZE: u32 = 12;

/// In an entry: the next one's address, or 0.
pub const HEAP_NEXT: u32 = 0;

/// In an entry: the block's size in bytes, 0 where the entry is spare.
pub const HEAP_BLOCK_SIZE: u32 = 4;

/// In an entry: 1 where the block is used, else 0.
pub const HEAP_BLOCK_USED: u32 = 8;

/// How many files there are.
pub const FILE_BLOCKS: u32 = 16;

/// The bytes of a file: one word, its mode, 0 where it is closed. File n stands at `FILES.from + n * FILE_SIZE`.
pub const FILE_SIZE: u32 = 4;

/// The running thread's number.
pub const CURRENT: u32 = 0xEA00;

/// The number, and 1 more, of the thread to take up when the last frame has gone; 0 where there is none.
pub const NEXT: u32 = 0xEA04;

/// How many frames there are.
pub const FRAME_COUNT: u32 = 0xEA08;

/// How many threads there are, the size of the table.
pub const THREAD_COUNT: u32 = 0xEA0C;

/// How many events there are, the size of the table.
pub const EVENT_COUNT: u32 = 0xEA10;

/// The state of random numbers.
pub const RANDOM: u32 = 0xEA14;

/// strtok's place.
pub const TOKEN: u32 = 0xEA18;

/// The last error's number.
pub const ERRNO: u32 = 0xEA1C;

/// How many bytes the line of gets has.
pub const LINE_LENGTH: u32 = 0xEA20;

/// The heap's base.
pub const HEAP_BASE: u32 = 0xEA24;

/// The address of the first block's entry in the heap table, or 0.
pub const HEAP_FIRST: u32 = 0xEA40;

/// The address of the first spare entry of the heap table, or 0.
pub const HEAP_SPARE: u32 = 0xEA44;

/// Where a routine arrives with its answer in r2.
pub const LEAVE: u32 = 0x1400;

/// Where a call arrives that waits: the context of the work area is taken up as it is.
pub const WAIT: u32 = LEAVE + 0x80;

/// Where a routine arrives with an address in r8 that isn't user memory.
pub const BAD_POINTER: u32 = 0x1800;

/// Where a routine arrives with a handle in r8 that names no thread.
pub const BAD_THREAD: u32 = 0x1820;

/// Where a stay arrives that needs a frame more than there is room for.
pub const DEEP: u32 = 0x1840;

/// Where the return of a function arrives that the kernel hasn't called.
pub const BAD_RETURN: u32 = 0x1860;

/// Where a stay arrives with tasks to do before a context is taken up.
pub const WORK: u32 = 0x1880;

/// Where a stay arrives that calls a function, with the tasks that will be left.
pub const PUSH: u32 = 0x1B40;

/// Where a stay arrives that has no task left, and takes up its context.
pub const TAKE_UP: u32 = 0x1C80;

/// The listing that reads a byte of user memory, or tells that it is none. Room for 40 words, as for the three that follow.
pub const TESTED_READ_BYTE: u32 = 0x1D80;

/// The listing that writes a byte of user memory.
pub const TESTED_WRITE_BYTE: u32 = 0x1E20;

/// The listing that reads a word of user memory.
pub const TESTED_READ_WORD: u32 = 0x1EC0;

/// The listing that writes a word of user memory.
pub const TESTED_WRITE_WORD: u32 = 0x1F60;

/// The blocks of each table fit its range, and the work area the kernel's stack. The places in the entry's code lie in its range, one behind the other, the last four with room for 40 words each.
pub fn blocks_fit()
    ensures threads { THREADS.from + THREAD_BLOCKS * THREAD_SIZE ≤ THREADS.to }
    ensures events { EVENTS.from + EVENT_BLOCKS * EVENT_SIZE ≤ EVENTS.to }
    ensures frames { FRAMES.from + FRAME_BLOCKS * FRAME_SIZE ≤ FRAMES.to }
    ensures chains { CHAINS.from + CHAIN_BLOCKS * CHAIN_SIZE ≤ CHAINS.to }
    ensures heap { HEAP_TABLE.from + HEAP_ENTRIES * HEAP_ENTRY_SIZE ≤ HEAP_TABLE.to }
    ensures files { FILES.from + FILE_BLOCKS * FILE_SIZE ≤ FILES.to }
    ensures work_area { (STACK.from ≡ WORK_AREA) × (WORK_AREA + FRAME_SIZE ≤ STACK.to) }
    ensures joins { (ENTRY_CODE.from < LEAVE) × (LEAVE < WAIT) × (WAIT < BAD_POINTER) × (BAD_POINTER < BAD_THREAD) × (BAD_THREAD < DEEP) × (DEEP < BAD_RETURN) × (BAD_RETURN < WORK) × (WORK < PUSH) × (PUSH < TAKE_UP) × (TAKE_UP < TESTED_READ_BYTE) }
    ensures tested { (TESTED_READ_BYTE + 160 ≤ TESTED_WRITE_BYTE) × (TESTED_WRITE_BYTE + 160 ≤ TESTED_READ_WORD) × (TESTED_READ_WORD + 160 ≤ TESTED_WRITE_WORD) × (TESTED_WRITE_WORD + 160 ≤ ENTRY_CODE.to) }
{}
