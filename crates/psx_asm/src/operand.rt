//! Operands, read from a line's pieces from left to right: an operand, and the pieces behind it.
ghost use Rattle.std.specs.Prelude.{◌≡◌, ◌≤◌, ◌<◌, ◌&&◌, ◌-◌, ◌*◌, ◌+◌, ◌^◌, nat_le, slice_index, option_map, IfSome, length, drop};
ghost use Rattle.psx_asm.specs.Operands.{is_digit, register_of, register, mark, base, number_of, number, number_below, signed_number, plus, value};
ghost use Rattle.psx_asm.specs.Names.{names};
ghost use Rattle.psx_asm.specs.Shown.{shown, shown_value};

use crate::number::{below, signed_16};
use crate::piece::Piece;
use crate::statement::Value;
use crate::symbol::Symbol;
use crate::symbols::Symbols;
use psx_ins::reg::Reg;

// The byte at a place, or 0 behind the end.
fn byte_at(word: &[u8], at: usize) -> u8
    ensures { result ≡ slice_index word.now at }
{
    if at < word.len() { word[at] } else { 0 }
}

// Whether a byte is a decimal digit.
fn is_digit(byte: u8) -> bool
    ensures { result ≡ is_digit byte }
{
    48 <= byte && byte <= 57
}

// The register of a name.
fn register_of(word: &[u8]) -> Option<Reg>
    ensures value { result ≡ register_of word.now }
    ensures small { IfSome result (λ r. r.0 < 32) }
{
    let first = byte_at(word, 1);
    let second = byte_at(word, 2);
    if byte_at(word, 0) != b'r' {
        return None;
    }
    if word.len() == 2 {
        if is_digit(first) {
            return Some(Reg((first - 48) as u32));
        }
        return None;
    }
    if word.len() != 3 {
        return None;
    }
    if !(49 <= first && (first <= 51 && is_digit(second))) {
        return None;
    }
    let number = 10 * (first - 48) + (second - 48);
    if number < 32 {
        return Some(Reg(number as u32));
    }
    None
}

/// A register.
pub(crate) fn register<'p, 'a>(pieces: &'p [Piece<'a>]) -> Option<(Reg, &'p [Piece<'a>])>
    ensures value { option_map (λ x. (x.0, shown x.1.now)) result ≡ register (shown pieces.now) }
    ensures small { IfSome result (λ x. x.0.0 < 32) }
{
    match pieces {
        [Piece::Name(word), rest @ ..] => match register_of(word) {
            Some(found) => Some((found, rest)),
            None => None,
        },
        _ => None,
    }
}

// A mark.
fn mark<'p, 'a>(byte: u8, pieces: &'p [Piece<'a>]) -> Option<&'p [Piece<'a>]>
    ensures { option_map (λ x. shown x.now) result ≡ mark byte (shown pieces.now) }
{
    match pieces {
        [Piece::Mark(found), rest @ ..] if *found == byte => Some(rest),
        _ => None,
    }
}

/// A register in parentheses.
pub(crate) fn base<'p, 'a>(pieces: &'p [Piece<'a>]) -> Option<(Reg, &'p [Piece<'a>])>
    ensures value { option_map (λ x. (x.0, shown x.1.now)) result ≡ base (shown pieces.now) }
    ensures small { IfSome result (λ x. x.0.0 < 32) }
{
    let opened = mark(b'(', pieces)?;
    let (found, rest) = register(opened)?;
    let closed = mark(b')', rest)?;
    Some((found, closed))
}

/// The number of an `.equ`.
fn number_of(symbol: Option<Symbol>) -> Option<i64>
    ensures { result ≡ number_of symbol }
{
    match symbol {
        Some(Symbol::Number(number)) => Some(number),
        _ => None,
    }
}

/// A number, or the name of an earlier `.equ`.
pub(crate) fn number<'p, 'a>(
    known: &Symbols<'_>,
    pieces: &'p [Piece<'a>],
) -> Option<(i64, &'p [Piece<'a>])>
    ensures { option_map (λ x. (x.0, shown x.1.now)) result ≡ number (names known.now) (shown pieces.now) }
{
    match pieces {
        [Piece::Number(found), rest @ ..] => Some((*found, rest)),
        [Piece::Name(word), rest @ ..] => match number_of(known.get(word)) {
            Some(found) => Some((found, rest)),
            None => None,
        },
        _ => None,
    }
}

/// A number below a limit.
pub(crate) fn number_below<'p, 'a>(
    limit: u64,
    known: &Symbols<'_>,
    pieces: &'p [Piece<'a>],
) -> Option<(u32, &'p [Piece<'a>])>
    requires { limit ≤ 2 ^ 32 }
    ensures value { option_map (λ x. (x.0, shown x.1.now)) result ≡ number_below limit (names known.now) (shown pieces.now) }
    ensures small { IfSome result (λ x. x.0 < limit) }
{
    let (found, rest) = number(known, pieces)?;
    match below(limit, found) {
        Some(found) => Some((found, rest)),
        None => None,
    }
}

/// A number of 16 bits with a sign.
pub(crate) fn signed_number<'p, 'a>(
    known: &Symbols<'_>,
    pieces: &'p [Piece<'a>],
) -> Option<(u16, &'p [Piece<'a>])>
    ensures { option_map (λ x. (x.0, shown x.1.now)) result ≡ signed_number (names known.now) (shown pieces.now) }
{
    let (found, rest) = number(known, pieces)?;
    match signed_16(found) {
        Some(found) => Some((found, rest)),
        None => None,
    }
}

// A plus sign and a number.
fn plus<'p, 'a>(pieces: &'p [Piece<'a>]) -> Option<(i64, &'p [Piece<'a>])>
    ensures value { option_map (λ x. (x.0, shown x.1.now)) result ≡ plus (shown pieces.now) }
    ensures shorter { IfSome result (λ x. length x.1.now < length pieces.now) }
    ensures behind { IfSome result (λ x. x.1.now ≡ drop (length pieces.now - length x.1.now) pieces.now) }
{
    match pieces {
        [Piece::Mark(byte), Piece::Number(found), rest @ ..] => {
            if *byte == b'+' {
                Some((*found, rest))
            } else {
                None
            }
        }
        _ => None,
    }
}

/// A number, a name, or a name and a number.
pub(crate) fn value<'p, 'a>(pieces: &'p [Piece<'a>]) -> Option<(Value<'a>, &'p [Piece<'a>])>
    ensures value { option_map (λ x. (shown_value x.0, shown x.1.now)) result ≡ value (shown pieces.now) }
    ensures shorter { IfSome result (λ x. length x.1.now < length pieces.now) }
    ensures behind { IfSome result (λ x. x.1.now ≡ drop (length pieces.now - length x.1.now) pieces.now) }
{
    match pieces {
        [Piece::Number(found), rest @ ..] => Some((Value::Number(*found), rest)),
        [Piece::Name(word), rest @ ..] => match plus(rest) {
            Some((found, rest)) => Some((Value::Sum(word, found), rest)),
            None => Some((Value::Sum(word, 0), rest)),
        },
        _ => None,
    }
}
