//! Statements that begin with a directive.
ghost use Rattle.std.specs.Prelude.{◌≡◌, ◌<◌, ◌≤◌, ◌-◌, ◌^◌, take, drop, length, option_map, IfOk, IfSome};
ghost use Rattle.psx_asm.specs.Names.{names};
ghost use Rattle.psx_asm.specs.Operands.{value, values};
ghost use Rattle.psx_asm.specs.Directives.{by_directive, meaning, text_bytes, text, name, some_values, of_text, of_text_zero, of_space, of_align, of_org, of_equ};
ghost use Rattle.psx_asm.specs.Shown.{shown, shown_value, shown_values, shown_statement};

use crate::number::low_word;
use crate::operand::{number, number_below, value};
use crate::piece::Piece;
use crate::shape::{Directive, Width};
use crate::statement::{Statement, Value};
use crate::symbols::Symbols;
use std::alloc::{AllocError, Global};

// The byte that an escape stands for.
fn meaning(byte: u8) -> u8
    ensures { result ≡ meaning byte }
{
    match byte {
        b'n' => 10,
        b't' => 9,
        b'0' => 0,
        _ => byte,
    }
}

// The bytes of a text between its quotes.
fn between(word: &[u8]) -> &[u8]
    ensures { result.now ≡ take (length word.now - 2) (drop 1 word.now) }
{
    if word.len() < 2 {
        return &[];
    }
    &word[1..word.len() - 1]
}

// The bytes of a text, without its quotes and escapes.
fn text_bytes(alloc: Global, word: &[u8]) -> Result<Vec<u8>, AllocError>
    ensures { IfOk result (λ bytes. bytes.items ≡ text_bytes word.now) }
{
    let inner = between(word);
    let mut bytes = Vec::new(alloc);
    let mut escaped = false;
    for byte in inner {
        if escaped {
            bytes.push(meaning(*byte))?;
            escaped = false;
        } else if *byte == b'\\' {
            escaped = true;
        } else {
            bytes.push(*byte)?;
        }
    }
    Ok(bytes)
}

// A text and nothing more.
#[tactic(auto, unfolding(crate::specs::Directives::of_text))]
fn of_text<'a>(alloc: Global, pieces: &[Piece<'a>]) -> Result<Option<Statement<'a>>, AllocError>
    ensures { IfOk result (λ s. option_map shown_statement s ≡ of_text (shown pieces.now)) }
{
    match pieces {
        [Piece::Quoted(word)] => Ok(Some(Statement::Text(text_bytes(alloc, word)?))),
        _ => Ok(None),
    }
}

// A text, a byte 0 behind it, and nothing more.
#[tactic(auto, unfolding(crate::specs::Directives::of_text_zero))]
fn of_text_zero<'a>(
    alloc: Global,
    pieces: &[Piece<'a>],
) -> Result<Option<Statement<'a>>, AllocError>
    ensures { IfOk result (λ s. option_map shown_statement s ≡ of_text_zero (shown pieces.now)) }
{
    match pieces {
        [Piece::Quoted(word)] => {
            let mut bytes = text_bytes(alloc, word)?;
            bytes.push(0)?;
            Ok(Some(Statement::Text(bytes)))
        }
        _ => Ok(None),
    }
}

// The value at a place, and the place behind it.
fn value_at<'a>(pieces: &[Piece<'a>], at: usize) -> Option<(Value<'a>, usize)>
    requires { at < length pieces.now }
    ensures value { option_map (λ x. (shown_value x.0, shown (drop x.1 pieces.now))) result ≡ value (shown (drop at pieces.now)) }
    ensures further { IfSome result (λ x. (at < x.1) × (x.1 ≤ length pieces.now)) }
{
    let (first, rest) = value(&pieces[at..])?;
    Some((first, pieces.len() - rest.len()))
}

// Values up to the line's end.
fn values<'a>(alloc: Global, pieces: &[Piece<'a>]) -> Result<Option<Vec<Value<'a>>>, AllocError>
    ensures { IfOk result (λ vs. option_map (λ v. shown_values v.items) vs ≡ values (shown pieces.now)) }
{
    let mut found = Vec::new(alloc);
    let mut at = 0;
    while at < pieces.len() {
        let Some((first, next)) = value_at(pieces, at) else {
            return Ok(None);
        };
        found.push(first)?;
        at = next;
    }
    Ok(Some(found))
}

// Values, of which there is one at least.
fn some_values<'a>(
    alloc: Global,
    width: Width,
    pieces: &[Piece<'a>],
) -> Result<Option<Statement<'a>>, AllocError>
    ensures { IfOk result (λ s. option_map shown_statement s ≡ some_values width (shown pieces.now)) }
{
    if pieces.is_empty() {
        return Ok(None);
    }
    match values(alloc, pieces)? {
        Some(found) => Ok(Some(Statement::Values(width, found))),
        None => Ok(None),
    }
}

// So many zeros.
#[tactic(auto, unfolding(crate::specs::Directives::of_space))]
fn of_space<'a>(known: &Symbols<'_>, pieces: &[Piece<'a>]) -> Option<Statement<'a>>
    ensures { option_map shown_statement result ≡ of_space (names known.now) (shown pieces.now) }
{
    match number_below(4_294_967_296, known, pieces) {
        Some((count, [])) => Some(Statement::Space(count)),
        _ => None,
    }
}

// One less than a power of two.
fn ones(bits: u32) -> u16
    requires { bits < 13 }
    ensures { result ≡ 2 ^ bits - 1 }
{
    ((1u32 << bits) - 1) as u16
}

// Zeros up to a multiple of a power of two.
#[tactic(auto, unfolding(crate::specs::Directives::of_align))]
fn of_align<'a>(known: &Symbols<'_>, pieces: &[Piece<'a>]) -> Option<Statement<'a>>
    ensures { option_map shown_statement result ≡ of_align (names known.now) (shown pieces.now) }
{
    match number_below(13, known, pieces) {
        Some((bits, [])) => Some(Statement::Align(ones(bits))),
        _ => None,
    }
}

// The next address.
#[tactic(auto, unfolding(crate::specs::Directives::of_org))]
fn of_org<'a>(known: &Symbols<'_>, pieces: &[Piece<'a>]) -> Option<Statement<'a>>
    ensures { option_map shown_statement result ≡ of_org (names known.now) (shown pieces.now) }
{
    match number(known, pieces) {
        Some((at, [])) => Some(Statement::Org(low_word(at as i128))),
        _ => None,
    }
}

// A name for a number.
#[tactic(auto, unfolding(crate::specs::Directives::of_equ))]
fn of_equ<'a>(known: &Symbols<'_>, pieces: &[Piece<'a>]) -> Option<Statement<'a>>
    ensures { option_map shown_statement result ≡ of_equ (names known.now) (shown pieces.now) }
{
    match pieces {
        [Piece::Name(word), rest @ ..] => match number(known, rest) {
            Some((found, [])) => Some(Statement::Equ(word, found)),
            _ => None,
        },
        _ => None,
    }
}

/// The statement of a directive's operands, where they are of its kinds and in its ranges.
pub(crate) fn by_directive<'a>(
    alloc: Global,
    known: &Symbols<'_>,
    pieces: &[Piece<'a>],
    directive: Directive,
) -> Result<Option<Statement<'a>>, AllocError>
    ensures { IfOk result (λ s. option_map shown_statement s ≡ by_directive (names known.now) (shown pieces.now) directive) }
{
    match directive {
        Directive::Values(width) => some_values(alloc, width, pieces),
        Directive::Ascii => of_text(alloc, pieces),
        Directive::AsciiZero => of_text_zero(alloc, pieces),
        Directive::Space => Ok(of_space(known, pieces)),
        Directive::Align => Ok(of_align(known, pieces)),
        Directive::Org => Ok(of_org(known, pieces)),
        Directive::Equ => Ok(of_equ(known, pieces)),
    }
}
