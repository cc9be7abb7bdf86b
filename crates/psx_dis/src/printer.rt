//! The printed form.
ghost use Rattle.std.specs.Prelude.{◌≡◌, ◌≤◌, ◌<◌, ◌+◌, ◌*◌, ◌%◌, ◌^◌, ◌++◌, OnOk, IfOk, length, codes};
ghost use Rattle.std.specs.String.{string_bytes};
ghost use Rattle.psx_ins.specs.Decoding.{instruction_of};
ghost use Rattle.psx_dis.specs.Printed.{word_text, text_of, line, head, printed};

use crate::mnemonics::mnemonic;
use crate::operands::operands_of;
use crate::text::{put_operands, put_word};
use psx_base::Memory;
use psx_ins::decode;
use std::alloc::{AllocError, Global};

// Appends the directive of a word.
fn put_directive(text: &mut String, word: u32) -> Result<(), AllocError>
    ensures { OnOk result (string_bytes text.new ≡ string_bytes text.old ++ word_text word) }
{
    text.push_str(".word ")?;
    put_word(text, word)
}

// Appends what stands for a word at an address.
fn put_text(text: &mut String, at: u32, word: u32) -> Result<(), AllocError>
    requires { at + 4 ≤ 2 ^ 32 }
    ensures { OnOk result (string_bytes text.new ≡ string_bytes text.old ++ text_of at word (instruction_of word)) }
{
    let Some(ins) = decode(word) else {
        return put_directive(text, word);
    };
    let Some(operands) = operands_of(at as u64 + 4, ins) else {
        return put_directive(text, word);
    };
    text.push_str(mnemonic(ins))?;
    put_operands(text, operands)
}

// Appends the line of a word at an address.
fn put_line(text: &mut String, at: u32, word: u32) -> Result<(), AllocError>
    requires { at + 4 ≤ 2 ^ 32 }
    ensures { OnOk result (string_bytes text.new ≡ string_bytes text.old ++ line at word) }
{
    put_text(text, at, word)?;
    text.push_str("\n")
}

// A text of the line that says where the words begin.
fn head(alloc: Global, start: u32) -> Result<String, AllocError>
    ensures { IfOk result (λ text. string_bytes text ≡ head start) }
{
    let mut text = String::from_str(alloc, ".org ")?;
    put_word(&mut text, start)?;
    text.push_str("\n")?;
    Ok(text)
}

// The printed form, where memory is enough.
#[tactic(auto, using(crate::proofs::Lines::printed_more))]
fn lines(alloc: Global, start: u32, words: &[u32]) -> Result<String, AllocError>
    requires { start + 4 * length words.now ≤ 2 ^ 32 }
    ensures { IfOk result (λ text. string_bytes text ≡ printed start words.now) }
{
    let mut text = head(alloc, start)?;
    for (i, word) in words.iter().enumerate() {
        put_line(&mut text, start + 4 * i as u32, *word)?;
    }
    Ok(text)
}

/// The printed form of words of which the first stands at `start`: a line that says so, and a line for each word, each ended by
/// a line feed. Memory is the only error.
pub fn print(alloc: Global, start: u32, words: &[u32]) -> Result<String, Memory>
    requires aligned { start % 4 ≡ 0 }
    requires within { start + 4 * length words.now ≤ 2 ^ 32 }
    ensures { IfOk result (λ text. string_bytes text ≡ printed start words.now) }
{
    match lines(alloc, start, words) {
        Ok(text) => Ok(text),
        Err(_) => Err(Memory),
    }
}
