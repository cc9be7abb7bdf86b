//! The words of the data ranges in the image, by which the kernel's state is the one at a program's begin.
ghost use Rattle.std.specs.Prelude.{◌≡◌, ℕ, ◌%◌, ◌<◌, ◌≤◌};
ghost use Rattle.kern_layout.specs.BlockWords.{block_word};
ghost use Rattle.kern_layout.specs.Opening.{thread_opening, heap_opening, other_opening, opening_at, Opens, OpensAsStart};

use crate::KernelBlock;
use crate::places::{
    FILE_SIZE, HEAP_ENTRY_SIZE, HEAP_SPARE, THREAD_FREE, THREAD_SIZE, THREAD_USED,
};
use crate::ranges::{EVENTS, FILES, HEAP_TABLE, THREADS};

/// A file that is open for reading, and one that is open for writing.
const READ: u32 = 1;

const WRITE: u32 = 2;

/// How many words there are from the first data range on.
const DATA_WORDS: u32 = 0x1400;

fn thread_word(offset: u32) -> u32
    ensures { result ≡ thread_opening offset }
{
    if offset == 0 {
        THREAD_USED
    } else if offset % THREAD_SIZE == 0 {
        THREAD_FREE
    } else {
        0
    }
}

fn link_word(offset: u32) -> u32
    requires { offset < 0x1800 }
    ensures { result ≡ heap_opening offset }
{
    let next = offset + HEAP_ENTRY_SIZE;
    if offset % HEAP_ENTRY_SIZE == 0 && next < HEAP_TABLE.to - HEAP_TABLE.from {
        HEAP_TABLE.from + next
    } else {
        0
    }
}

fn other_word(at: u32) -> u32
    ensures { result ≡ other_opening at }
{
    if at == FILES.from {
        READ
    } else if at == FILES.from + FILE_SIZE {
        WRITE
    } else if at == HEAP_SPARE {
        HEAP_TABLE.from
    } else {
        0
    }
}

/// The opening word at an address of the data ranges: thread 0 is used and the others are free, files 0 and 1 are open, and the heap's entries are spare and linked. Every other word is 0.
pub fn opening_word(at: u32) -> u32
    requires { 0xB000 ≤ at }
    ensures { result ≡ opening_at at }
{
    if at < EVENTS.from {
        thread_word(at - THREADS.from)
    } else if at >= HEAP_TABLE.from && at < HEAP_TABLE.to {
        link_word(at - HEAP_TABLE.from)
    } else {
        other_word(at)
    }
}

/// Sets each word from the first data range on to its opening word. The words below stay. The boot code stores the two sizes besides.
pub fn put_opening(block: &mut KernelBlock)
    ensures opens { Opens (block_word block.new) }
    ensures below { (a : ℕ) → a < 0xB000 → block_word block.new a ≡ block_word block.old a }
{
    for word in 0..DATA_WORDS {
        let at = THREADS.from + 4 * word;
        block.put_word(at, opening_word(at));
    }
}

/// With the two sizes stored, the opening words are the state at a program's begin, whatever program it is. It does nothing.
pub fn opening_reads()
    ensures { OpensAsStart }
{}
