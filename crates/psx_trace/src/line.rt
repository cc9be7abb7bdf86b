//! The line of an item.
ghost use Rattle.std.specs.Prelude.{◌≡◌, ◌≤◌, ◌+◌, ◌*◌, ℕ, List, ◌++◌, length, codes};
ghost use Rattle.arrayvec.specs.ArrayVec.{array_vec_len};
ghost use Rattle.psx_trace.specs.Digits.{field, fields, mark};
ghost use Rattle.psx_trace.specs.Line.{gate_letter, general_registers, head, item_text, line};
ghost use Rattle.psx_trace.specs.Plain.{entrance_of, registers_of, item_of};
ghost use Rattle.psx_trace.specs.StopText.{stop_text};

use crate::item::{Entered, Item, Regs};
use crate::stops::stop_text;
use crate::text::{TraceLine, put_count, put_field, put_mark};
use psx_base::Stop;
use psx_text::put;

// The letter of an entrance.
fn gate_letter(gate: Entered) -> u8
    ensures { result ≡ gate_letter (entrance_of gate) }
{
    match gate {
        Entered::A => b'A',
        Entered::B => b'B',
        Entered::C => b'C',
        Entered::Sys => b'Y',
        Entered::Interrupt => b'I',
        Entered::Done => b'P',
        Entered::Back => b'K',
        Entered::Trap => b'T',
    }
}

// The letter and the count of an item.
#[tactic(auto, using(crate::proofs::DecimalSteps::decimal_fits))]
fn head(letter: u8, count: u64) -> TraceLine
    ensures items { result.items ≡ head letter count }
    ensures len { array_vec_len result ≤ 22 }
{
    let mut text = TraceLine::new();
    text.push(letter);
    text.push(b' ');
    put_count(&mut text, count);
    text
}

// The text of an entry.
fn entry_text(count: u64, cause: u32, epc: u32, gate: Entered, number: u32) -> TraceLine
    ensures items { result.items ≡ head 69 count ++ field cause ++ field epc
        ++ mark (gate_letter (entrance_of gate)) ++ field number }
    ensures len { array_vec_len result ≤ 337 }
{
    let mut text = head(b'E', count);
    put_field(&mut text, cause);
    put_field(&mut text, epc);
    put_mark(&mut text, gate_letter(gate));
    put_field(&mut text, number);
    text
}

// A port's address and a value.
fn port_text(letter: u8, count: u64, at: u32, value: u32) -> TraceLine
    ensures items { result.items ≡ head letter count ++ field at ++ field value }
    ensures len { array_vec_len result ≤ 337 }
{
    let mut text = head(letter, count);
    put_field(&mut text, at);
    put_field(&mut text, value);
    text
}

// The text of a return up to HI and LO.
fn return_head(count: u64, pc: u32, sr: u32, hi: u32, lo: u32) -> TraceLine
    ensures items { result.items ≡ head 88 count ++ field pc ++ field sr ++ field hi ++ field lo }
    ensures len { array_vec_len result ≤ 58 }
{
    let mut text = head(b'X', count);
    put_field(&mut text, pc);
    put_field(&mut text, sr);
    put_field(&mut text, hi);
    put_field(&mut text, lo);
    text
}

// Appends words, each behind a space.
fn put_fields(text: &mut TraceLine, words: &[u32])
    requires { array_vec_len text.old + 9 * length words.now ≤ 384 }
    ensures items { text.new.items ≡ text.old.items ++ fields words.now }
    ensures len { array_vec_len text.new ≡ array_vec_len text.old + 9 * length words.now }
{
    for word in words {
        put_field(text, *word);
    }
}

// The text of a return.
fn return_text(count: u64, pc: u32, sr: u32, hi: u32, lo: u32, regs: Regs) -> TraceLine
    ensures items { result.items ≡ head 88 count ++ field pc ++ field sr ++ field hi ++ field lo
        ++ fields (general_registers (registers_of regs.0 hi lo)) }
    ensures len { array_vec_len result ≤ 337 }
{
    let mut text = return_head(count, pc, sr, hi, lo);
    put_fields(&mut text, &regs.0);
    text
}

// The text of the stop.
fn end_text(count: u64, stop: Stop) -> TraceLine
    ensures items { result.items ≡ head 83 count ++ codes " " ++ stop_text stop }
    ensures len { array_vec_len result ≤ 337 }
{
    let mut text = head(b'S', count);
    text.push(b' ');
    put(&mut text, stop_text(stop).as_slice());
    text
}

// The letter and the fields of an item.
#[tactic(auto, unfolding(crate::specs::Line::item_text))]
fn item_text(item: Item) -> TraceLine
    ensures items { result.items ≡ item_text (item_of item) }
    ensures len { array_vec_len result ≤ 337 }
{
    match item {
        Item::B { count } => head(b'B', count),
        Item::E {
            count,
            cause,
            epc,
            gate,
            number,
        } => entry_text(count, cause, epc, gate, number),
        Item::R { count, at, value } => port_text(b'R', count, at, value),
        Item::W { count, at, value } => port_text(b'W', count, at, value),
        Item::X {
            count,
            pc,
            sr,
            hi,
            lo,
            regs,
        } => return_text(count, pc, sr, hi, lo, regs),
        Item::S { count, stop } => end_text(count, stop),
    }
}

/// The line of an item: its letter and its fields in order, parted by single spaces and ended by a line feed.
pub fn line_of(item: Item) -> TraceLine
    ensures items { result.items ≡ line (item_of item) }
    ensures ended { (front : List ℕ) × (result.items ≡ front ++ codes "\n") }
    ensures fits { array_vec_len result ≤ 338 }
{
    let mut line = item_text(item);
    line.push(b'\n');
    line
}
