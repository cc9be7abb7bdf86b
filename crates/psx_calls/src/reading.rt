//! What the words of the command line ask for, and the text on standard input.
ghost use Rattle.std.specs.Prelude.{◌≡◌, ◌≤◌, ◌+◌, IfOk, length};
ghost use Rattle.psx_base.specs.Host.{IsFront};
ghost use Rattle.psx_calls.specs.Words.{numbers_asked, numbers_by, words_of};

use crate::numbers::Numbers;
use crate::refusal::Refusal;
use crate::shown::Fault;
use std::alloc::Global;
use std::io::Read;

// What a word asks for.
fn numbers_by(word: &str) -> Option<Numbers>
    ensures { result ≡ numbers_by word.now }
{
    if word == "hex" {
        return Some(Numbers::Hexadecimal);
    }
    if word == "dec" {
        return Some(Numbers::Decimal);
    }
    None
}

/// How the words ask the numbers to be written: `hex` or no word, or `dec`. None where they are in no form.
pub fn numbers_asked(words: &[&str]) -> Option<Numbers>
    ensures { result ≡ numbers_asked (words_of words.now) }
{
    match words {
        [] => Some(Numbers::Hexadecimal),
        [word] => numbers_by(word),
        _ => None,
    }
}

/// Reads one byte more than the limit at most, or to the end.
pub fn read_text<T: Read>(alloc: Global, reader: &mut T, limit: usize) -> Result<Vec<u8>, Refusal>
    ensures room { IfOk result (λ text. length text.items ≤ limit + 1) }
    ensures bytes { IfOk result (λ text. IsFront (limit + 1) (T.remaining reader.old) text.items) }
{
    let mut text = Vec::new(alloc);
    let mut buffer = [0u8; 4096];
    for _ in 0..u64::MAX {
        if text.len() > limit {
            return Ok(text);
        }
        let room = (limit - text.len()).saturating_add(1).min(4096);
        let part = &mut buffer[..room];
        match reader.read(part) {
            Ok(0) => return Ok(text),
            Ok(count) => {
                if text.extend_from_slice(&part[..count]).is_err() {
                    return Err(Refusal::Trace(Fault::Memory));
                }
            }
            Err(_) => return Err(Refusal::Read),
        }
    }
    Err(Refusal::Read)
}
