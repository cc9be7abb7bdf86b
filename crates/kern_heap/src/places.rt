//! Where the routines stand, in the cached segment, in which the kernel runs, and the kernel's data as the listings reach it.
use kern_layout::places::{HEAP_BASE, HEAP_BLOCK_SIZE, HEAP_BLOCK_USED, HEAP_FIRST, HEAP_SPARE};
use kern_layout::ranges::HEAP_CODE;
use kern_stay::places::CACHED;

/// The listing of malloc.
pub const MALLOC: u32 = CACHED + HEAP_CODE.from;

/// The listing of free.
pub const FREE: u32 = MALLOC + 0x40;

/// The listing of calloc.
pub const CALLOC: u32 = FREE + 0x40;

/// The listing of realloc.
pub const REALLOC: u32 = CALLOC + 0x80;

/// The listing of InitHeap.
pub const INIT_HEAP: u32 = REALLOC + 0x100;

/// The listing that gives bytes of the first free block that has so many.
pub const ALLOT: u32 = INIT_HEAP + 0x100;

/// The listing that frees the used block at an address.
pub const RELEASE: u32 = ALLOT + 0x100;

/// The listing that finds the used block at an address.
pub const FIND: u32 = RELEASE + 0x80;

/// The listing that joins a free block with a free one behind it.
pub const JOIN: u32 = FIND + 0x80;

/// The listing that counts the bytes of user memory from an address on.
pub const ROOM: u32 = JOIN + 0x80;

/// The upper half of the data's addresses in the lowest segment, in which the table's entries are named, 1 more since the lower half counts as negative.
pub const DATA: u16 = 1;

/// The lower half of the address of the heap's base.
pub const BASE: u16 = HEAP_BASE as u16;

/// That of the word that names the first block's entry.
pub const FIRST: u16 = HEAP_FIRST as u16;

/// That of the word that names the first spare entry.
pub const SPARE: u16 = HEAP_SPARE as u16;

/// In an entry: the block's size.
pub const SIZE: u16 = HEAP_BLOCK_SIZE as u16;

/// In an entry: 1 where the block is used, else 0.
pub const USED: u16 = HEAP_BLOCK_USED as u16;
