//! The tables of routines.
ghost use Rattle.std.specs.Prelude.{◌≡◌, ℕ, ◌+◌, ◌*◌, ◌%◌, ◌≤◌};
ghost use Rattle.kern_layout.specs.BlockWords.{IsBlock};
ghost use Rattle.abs_kernel.specs.CallTable.{served_call};
ghost use Rattle.kern_stay.specs.Words.{over, overlaid};
ghost use Rattle.kern_entry.specs.Tables.{table_word};
ghost use Rattle.kern_image.specs.Tables.{routine_of, table_words, table_pieces};

use crate::places::PLACES;
use abs_kernel::{CallId, served};
use kern_layout::KernelBlock;
use kern_layout::ranges::{TABLE_A, TABLE_B, TABLE_C};
use psx_base::Table;

// The address of a call's listing, and 0 for a call with no place.
fn routine(id: CallId) -> u32
    ensures { result ≡ routine_of id }
{
    for place in &PLACES {
        if place.call == id {
            return place.at;
        }
    }
    0
}

// The word of a number: 0 where it isn't served.
fn word_at(table: Table, number: u32) -> u32
    ensures { result ≡ table_word routine_of (served_call table number) }
{
    match served(table, number) {
        Some(id) => routine(id),
        None => 0,
    }
}

// Sets the words of a table from an address on.
fn put_table(block: &mut KernelBlock, at: u32, table: Table, count: u32)
    requires aligned { at % 4 ≡ 0 }
    requires within { at + 4 * count ≤ 0x10000 }
    ensures { (f : ℕ → ℕ) → IsBlock block.old f → IsBlock block.new (over at (table_words table count) f) }
{
    for number in 0..count {
        block.put_word(at + 4 * number, word_at(table, number));
    }
}

/// Sets the words of the three tables. Every other word stays.
pub fn place_tables(block: &mut KernelBlock)
    ensures { (f : ℕ → ℕ) → IsBlock block.old f → IsBlock block.new (overlaid table_pieces f) }
{
    put_table(block, TABLE_B.from, Table::B, 0x5F);
    put_table(block, TABLE_C.from, Table::C, 0x20);
    put_table(block, TABLE_A.from, Table::A, 0xC0);
}
