//! The one item whose line a text can begin with.
ghost use Rattle.std.specs.Prelude.{◌≡◌, ◌<◌, ◌+◌, ◌*◌, ◌^◌, ℕ, List, ◌∷◌, ◌++◌, All, length, codes, drop};
ghost use Rattle.psx_trace.specs.declared.item.Entered.{Entered};
ghost use Rattle.psx_trace.specs.declared.item.Regs.{Regs};
ghost use Rattle.psx_trace.specs.Digits.{field, fields, mark};
ghost use Rattle.psx_trace.specs.Line.{gate_letter};
ghost use Rattle.psx_trace.specs.Plain.{entrance_of};
ghost use Rattle.psx_trace.specs.Reading.{IsWord, IsItem};

use crate::item::{Entered, Item, Regs};
use crate::parts::word_after;
use psx_text::byte_at;

// The entrance of a letter.
fn gate_of(letter: u8) -> Entered
    ensures { (gate : Entered) → letter ≡ gate_letter (entrance_of gate) → result ≡ gate }
{
    match letter {
        b'A' => Entered::A,
        b'B' => Entered::B,
        b'C' => Entered::C,
        b'Y' => Entered::Sys,
        b'I' => Entered::Interrupt,
        b'P' => Entered::Done,
        b'K' => Entered::Back,
        _ => Entered::Trap,
    }
}

// The entry whose fields a text begins with.
pub(crate) fn entry_of(count: u64, fields: &[u8]) -> Item
    ensures value { (cause epc number : ℕ) (gate : Entered) (rest : List ℕ) → IsWord cause → IsWord epc → IsWord number
        → fields.now ≡ field cause ++ (field epc ++ (mark (gate_letter (entrance_of gate)) ++ (field number ++ rest)))
        → result ≡ Item.E count cause epc gate number }
    ensures fit { IsItem result }
{
    let cause = word_after(fields, 0);
    let epc = word_after(fields, 9);
    let gate = gate_of(byte_at(fields, 19));
    let number = word_after(fields, 20);
    Item::E {
        count,
        cause,
        epc,
        gate,
        number,
    }
}

// The read of a port whose fields a text begins with.
pub(crate) fn read_of(count: u64, fields: &[u8]) -> Item
    ensures value { (at value : ℕ) (rest : List ℕ) → IsWord at → IsWord value → fields.now ≡ field at ++ (field value ++ rest)
        → result ≡ Item.R count at value }
    ensures fit { IsItem result }
{
    let at = word_after(fields, 0);
    let value = word_after(fields, 9);
    Item::R { count, at, value }
}

// The write of a port whose fields a text begins with.
pub(crate) fn write_of(count: u64, fields: &[u8]) -> Item
    ensures value { (at value : ℕ) (rest : List ℕ) → IsWord at → IsWord value → fields.now ≡ field at ++ (field value ++ rest)
        → result ≡ Item.W count at value }
    ensures fit { IsItem result }
{
    let at = word_after(fields, 0);
    let value = word_after(fields, 9);
    Item::W { count, at, value }
}

// The registers whose words a text has from a place on.
fn regs_after(text: &[u8], at: usize) -> Regs
    requires { at < 100 }
    ensures value { (regs : Regs) (rest : List ℕ) → length regs.0 ≡ 31 → All IsWord regs.0 → drop at text.now ≡ fields regs.0 ++ rest
        → result ≡ regs }
    ensures fit { (length result.0 ≡ 31) × All IsWord result.0 }
{
    let mut words = [0; 31];
    for number in 0..31 {
        words[number] = word_after(text, at + 9 * number);
    }
    Regs(words)
}

// The return whose fields a text begins with.
pub(crate) fn return_of(count: u64, text: &[u8]) -> Item
    ensures value { (pc sr hi lo : ℕ) (regs : Regs) (rest : List ℕ) → IsWord pc → IsWord sr → IsWord hi → IsWord lo
        → length regs.0 ≡ 31 → All IsWord regs.0
        → text.now ≡ field pc ++ (field sr ++ (field hi ++ (field lo ++ (fields regs.0 ++ rest))))
        → result ≡ Item.X count pc sr hi lo regs }
    ensures fit { IsItem result }
{
    let pc = word_after(text, 0);
    let sr = word_after(text, 9);
    let hi = word_after(text, 18);
    let lo = word_after(text, 27);
    let regs = regs_after(text, 36);
    Item::X {
        count,
        pc,
        sr,
        hi,
        lo,
        regs,
    }
}
