//! How the numbers of calls are written, as the word of the command line asks, and what a text is made of.
ghost use Rattle.std.specs.Prelude.{◌≡◌, ◌++◌, OnOk, decimal};
ghost use Rattle.psx_text.specs.Digits.{hex8};
ghost use Rattle.psx_calls.specs.Numbers.{number_text};

use arrayvec::ArrayVec;
use itoa::Buffer;
use psx_trace::text::put_field;
use std::alloc::AllocError;

/// How the numbers of calls are written. Counts and the numbers of lines are always decimal, and addresses hexadecimal.
#[derive(Clone, Copy, PartialEq, Eq, Debug)]
pub enum Numbers {
    /// In eight hexadecimal digits with capitals.
    Hexadecimal,
    /// In decimal, without a sign and leading zeros.
    Decimal,
}

// Appends a count in decimal.
pub(crate) fn put_count(out: &mut Vec<u8>, count: u64) -> Result<(), AllocError>
    ensures { OnOk result (out.new.items ≡ out.old.items ++ decimal count) }
{
    let mut buffer = Buffer::new();
    out.extend_from_slice(buffer.format(count).as_bytes())?;
    Ok(())
}

// Appends a word in eight hexadecimal digits.
pub(crate) fn put_word(out: &mut Vec<u8>, word: u32) -> Result<(), AllocError>
    ensures { OnOk result (out.new.items ≡ out.old.items ++ hex8 word) }
{
    let mut field: ArrayVec<u8, 16> = ArrayVec::new();
    put_field(&mut field, word);
    let digits = &field.as_slice()[1..];
    out.extend_from_slice(digits)?;
    Ok(())
}

// Appends a number of a call.
pub(crate) fn put_number(out: &mut Vec<u8>, numbers: Numbers, number: u32) -> Result<(), AllocError>
    ensures { OnOk result (out.new.items ≡ out.old.items ++ number_text numbers number) }
{
    match numbers {
        Numbers::Hexadecimal => put_word(out, number),
        Numbers::Decimal => put_count(out, number as u64),
    }
}
