//! The text of a stop.
ghost use Rattle.std.specs.Prelude.{◌≡◌, ◌≤◌, ◌+◌, ◌++◌, length};
ghost use Rattle.arrayvec.specs.ArrayVec.{array_vec_len};
ghost use Rattle.psx_trace.specs.Digits.{field, mark};
ghost use Rattle.psx_trace.specs.StopText.{table_letter, stop_text};

use crate::text::{put_field, put_mark};
use arrayvec::ArrayVec;
use psx_base::{Stop, Table};
use psx_text::put;

/// The bytes of a stop's text. The longest text has 28.
pub type StopText = ArrayVec<u8, 64>;

// The letter of a table.
fn table_letter(table: Table) -> u8
    ensures { result ≡ table_letter table }
{
    match table {
        Table::A => b'A',
        Table::B => b'B',
        Table::C => b'C',
        Table::Sys => b'Y',
    }
}

// A name alone.
fn named(name: &[u8]) -> StopText
    requires { length name.now ≤ 10 }
    ensures items { result.items ≡ name.now }
    ensures len { array_vec_len result ≡ length name.now }
{
    let mut text = StopText::new();
    put(&mut text, name);
    text
}

// A name and a word.
fn with_one(name: &[u8], first: u32) -> StopText
    requires { length name.now ≤ 10 }
    ensures items { result.items ≡ name.now ++ field first }
    ensures len { array_vec_len result ≡ length name.now + 9 }
{
    let mut text = named(name);
    put_field(&mut text, first);
    text
}

// A name and two words.
fn with_two(name: &[u8], first: u32, second: u32) -> StopText
    requires { length name.now ≤ 10 }
    ensures items { result.items ≡ name.now ++ field first ++ field second }
    ensures len { array_vec_len result ≡ length name.now + 18 }
{
    let mut text = with_one(name, first);
    put_field(&mut text, second);
    text
}

// A name, a table and two words.
fn with_table(name: &[u8], table: Table, first: u32, second: u32) -> StopText
    requires { length name.now ≤ 8 }
    ensures items { result.items ≡ name.now ++ mark (table_letter table) ++ field first ++ field second }
    ensures len { array_vec_len result ≡ length name.now + 20 }
{
    let mut text = named(name);
    put_mark(&mut text, table_letter(table));
    put_field(&mut text, first);
    put_field(&mut text, second);
    text
}

/// The text of a stop: its name and its fields in order, each behind a space. A word has eight hexadecimal digits
/// with capitals, a table its letter, as in `Unserved A 00000031 80010014`.
#[tactic(auto, unfolding(crate::specs::StopText::stop_text))]
pub fn stop_text(stop: Stop) -> StopText
    ensures items { result.items ≡ stop_text stop }
    ensures fits { array_vec_len result ≤ 28 }
{
    match stop {
        Stop::Exit { code } => with_one(b"Exit", code),
        Stop::Budget => named(b"Budget"),
        Stop::UserFetch { at } => with_one(b"UserFetch", at),
        Stop::UserData { pc, at } => with_two(b"UserData", pc, at),
        Stop::Protected { pc } => with_one(b"Protected", pc),
        Stop::SlotBranch { pc } => with_one(b"SlotBranch", pc),
        Stop::Exception { code, pc } => with_two(b"Exception", code, pc),
        Stop::Unserved { table, number, ra } => with_table(b"Unserved", table, number, ra),
        Stop::BadPointer { at, ra } => with_two(b"BadPointer", at, ra),
        Stop::BadThread { number, ra } => with_two(b"BadThread", number, ra),
        Stop::Deep { ra } => with_one(b"Deep", ra),
        Stop::BadReturn { ra } => with_one(b"BadReturn", ra),
    }
}
