//! The command `dis`: the printed words of a program's text.
ghost use Rattle.std.specs.Prelude.{◌≡◌, ◌⊎◌, ◌<◌, ◌≤◌, ◌+◌, ◌-◌, ◌*◌, ◌/◌, ◌%◌, ◌^◌, ℕ, List, IfOk, length};
ghost use Rattle.std.specs.String.{string_bytes};
ghost use Rattle.abs_run.specs.Accepted.{IsAccepted};
ghost use Rattle.psxk_run.specs.Printing.{byte_at, word_at, word_count, words_of, printing};

use psx_base::Memory;
use psx_exe::Exe;
use std::alloc::{AllocError, Global};

// The byte so far behind the first printed address.
fn byte_at(exe: &Exe, place: u32) -> u8
    ensures { result ≡ byte_at exe.now place }
{
    let in_front = exe.dest % 4;
    if place < in_front {
        return 0;
    }
    let text = exe.text.as_slice();
    let behind = (place - in_front) as usize;
    if behind < text.len() { text[behind] } else { 0 }
}

// A word that is printed, by its number.
fn word_at(exe: &Exe, number: u32) -> u32
    requires { 4 * number + 4 ≤ 2 ^ 32 }
    ensures { result ≡ word_at exe.now number }
{
    let place = 4 * number;
    u32::from_le_bytes([
        byte_at(exe, place),
        byte_at(exe, place + 1),
        byte_at(exe, place + 2),
        byte_at(exe, place + 3),
    ])
}

// The words that are printed.
fn words_of(alloc: Global, exe: &Exe) -> Result<Vec<u32>, AllocError>
    requires { length exe.now.text ≤ 2 ^ 23 }
    ensures { IfOk result (λ v. v.items ≡ words_of exe.now) }
{
    let count = ((exe.dest % 4) as usize + exe.text.len() + 3) / 4;
    let mut words = Vec::with_capacity(alloc, count)?;
    for number in 0..count as u32 {
        words.push(word_at(exe, number))?;
    }
    Ok(words)
}

/// The text that `dis` sends of a program.
#[tactic(auto, using(crate::proofs::PrintedWords::few, crate::proofs::PrintedWords::words_end))]
pub(crate) fn printing(alloc: Global, exe: &Exe) -> Result<String, Memory>
    requires { IsAccepted exe.now }
    ensures { IfOk result (λ text. string_bytes text ≡ printing exe.now) }
{
    match words_of(alloc, exe) {
        Ok(words) => psx_dis::print(alloc, exe.dest - exe.dest % 4, &words),
        Err(_) => Err(Memory),
    }
}
