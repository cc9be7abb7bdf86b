//! Reading a trace.
ghost use Rattle.std.specs.Prelude.{◌≡◌, ◌≤◌, ◌<◌, ◌+◌, ◌^◌, ℕ, List, ◌∷◌, ◌++◌, All, Contains, IfOk, IfErr, IfSome, IfNone, IsErrOf, IsTrue, false, length};
ghost use Rattle.psx_trace.specs.Digits.{field, fields, mark};
ghost use Rattle.psx_trace.specs.Line.{line};
ghost use Rattle.psx_trace.specs.Plain.{item_of};
ghost use Rattle.psx_trace.specs.Reading.{BeginsWith, BeginsWithNone, IsStop, IsItem, IsTraceOf, Tells};
ghost use Rattle.psx_trace.specs.StopText.{stop_text, table_letter};
ghost use Rattle.psx_trace.specs.declared.item.Item.{Item};
ghost use Rattle.psx_base.specs.declared.stop.Stop.{Stop};
ghost use Rattle.psx_base.specs.declared.stop.Table.{Table};

use crate::candidate::{entry_of, read_of, return_of, write_of};
use crate::item::Item;
use crate::line::line_of;
use crate::parts::word_after;
use psx_base::{Stop, Table};
use psx_text::{byte_at, count_of, digits_len, front, skip};
use std::alloc::Global;

/// Why a text isn't a trace.
#[derive(Clone, Copy, PartialEq, Eq, Debug)]
pub enum TraceError {
    /// The first line that isn't the line of an item, by its number from 1 on.
    BadLine { line: u32 },
    /// Want of memory.
    Memory,
}

/// The reader of traces.
pub struct Trace;

// Whether a text begins with the line of an item.
fn begins_with(text: &[u8], item: Item) -> bool
    ensures begun { IsTrue result → BeginsWith text.now item }
    ensures other { result ≡ false → ¬ BeginsWith text.now item }
{
    text.starts_with(line_of(item).as_slice())
}

// The first of some items whose line a text begins with.
fn first_of(text: &[u8], items: &[Item]) -> Option<Item>
    requires { All IsItem items.now }
    ensures found { IfSome result (λ item. IsItem item × BeginsWith text.now item) }
    ensures none { IfNone result (All (λ item. ¬ BeginsWith text.now item) items.now) }
{
    for item in items {
        if begins_with(text, *item) {
            return Some(*item);
        }
    }
    None
}

// The first of some stops whose line with this count a text begins with.
fn first_stop(text: &[u8], count: u64, stops: &[Stop]) -> Option<Item>
    requires { All IsStop stops.now }
    ensures found { IfSome result (λ item. IsItem item × BeginsWith text.now item) }
    ensures none { IfNone result (All (λ stop. ¬ BeginsWith text.now (Item.S count stop)) stops.now) }
{
    for stop in stops {
        let item = Item::S { count, stop: *stop };
        if begins_with(text, item) {
            return Some(item);
        }
    }
    None
}

// The table of a letter.
fn table_of(letter: u8) -> Table
    ensures { (table : Table) → letter ≡ table_letter table → result ≡ table }
{
    match letter {
        b'A' => Table::A,
        b'B' => Table::B,
        b'C' => Table::C,
        _ => Table::Sys,
    }
}

// For each kind of stop, the one stop that fields can tell of.
fn stops_of(fields: &[u8]) -> [Stop; 12]
    ensures fit { All IsStop result }
    ensures value { (stop : Stop) (rest : List ℕ) → IsStop stop
        → fields.now ≡ 32 ∷ (stop_text stop ++ rest) → Contains result stop }
{
    let table = table_of(byte_at(fields, 10));
    let after_four = word_after(fields, 5);
    let after_eight = word_after(fields, 9);
    let after_nine = word_after(fields, 10);
    let after_ten = word_after(fields, 11);
    let second_after_eight = word_after(fields, 18);
    let second_after_nine = word_after(fields, 19);
    let ra = word_after(fields, 20);
    [
        Stop::Exit { code: after_four },
        Stop::Budget,
        Stop::UserFetch { at: after_nine },
        Stop::UserData {
            pc: after_eight,
            at: second_after_eight,
        },
        Stop::Protected { pc: after_nine },
        Stop::SlotBranch { pc: after_ten },
        Stop::Exception {
            code: after_nine,
            pc: second_after_nine,
        },
        Stop::Unserved {
            table,
            number: after_ten,
            ra,
        },
        Stop::BadPointer { at: after_ten, ra },
        Stop::BadThread {
            number: after_nine,
            ra: second_after_nine,
        },
        Stop::Deep { ra: after_four },
        Stop::BadReturn { ra: after_nine },
    ]
}

// The item whose line a text begins with.
fn read_line(text: &[u8]) -> Option<Item>
    ensures found { IfSome result (λ item. IsItem item × BeginsWith text.now item) }
    ensures none { IfNone result (BeginsWithNone text.now) }
{
    let body = skip(text, 2);
    let digits = digits_len(body);
    let count = count_of(front(body, digits));
    let fields = skip(body, digits);
    let plain = [
        read_of(count, fields),
        write_of(count, fields),
        entry_of(count, fields),
        return_of(count, fields),
        Item::B { count },
    ];
    if let Some(item) = first_of(text, &plain) {
        return Some(item);
    }
    if let Some(item) = first_stop(text, count, &stops_of(fields)) {
        return Some(item);
    }
    None
}

// How many bytes the line of an item has.
fn line_len(item: Item) -> usize
    ensures value { result ≡ length (line (item_of item)) }
    ensures some { 0 < result }
{
    line_of(item).len()
}

impl Trace {
    /// The items whose lines a text is: there is one such list at most. A text of no bytes has no items, and the last line
    /// has its line feed too. Else the first line that isn't the line of an item, by its number from 1 on.
    pub fn read(alloc: Global, text: &[u8]) -> Result<Vec<Item>, TraceError>
        requires { length text.now < 2 ^ 32 }
        ensures items { IfOk result (λ v. IsTraceOf text.now v.items) }
        ensures only { IfOk result (λ v. (items : List Item) → IsTraceOf text.now items → items ≡ v.items) }
        ensures error { IfErr result (λ e. Tells text.now e) }
        ensures bad { (line : ℕ) → IsErrOf result (TraceError.BadLine line)
            → (items : List Item) → ¬ IsTraceOf text.now items }
    {
        let mut items = Vec::new(alloc);
        let mut rest = text;
        while !rest.is_empty() {
            let Some(item) = read_line(rest) else {
                return Err(TraceError::BadLine {
                    line: items.len() as u32 + 1,
                });
            };
            let Ok(()) = items.push(item) else {
                return Err(TraceError::Memory);
            };
            rest = skip(rest, line_len(item));
        }
        Ok(items)
    }
}
