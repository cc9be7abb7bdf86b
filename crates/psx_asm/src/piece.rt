//! The pieces of a line: its tokens, each with its text.
ghost use Rattle.std.specs.Prelude.{◌≡◌, ◌-◌, take, drop, List, Option, option_map, IfOk};
ghost use Rattle.psx_asm.specs.Piece.{Piece as Words, piece, pieces, IsReadAs};
ghost use Rattle.psx_asm.specs.Shown.{shown_piece, shown};

use psx_lex::{Kind, LexError, Token, tokens};
use std::alloc::{AllocError, Global};

/// A token with its text.
#[derive(Clone, Copy, Debug)]
pub(crate) enum Piece<'a> {
    Name(&'a [u8]),
    Directive(&'a [u8]),
    Number(i64),
    Quoted(&'a [u8]),
    Mark(u8),
}

// The bytes from one place up to another.
fn slice_of(line: &[u8], from: usize, to: usize) -> &[u8]
    ensures { result.now ≡ take (to - from) (drop from line.now) }
{
    if line.len() <= from {
        return &[];
    }
    if to <= from {
        return &[];
    }
    let rest = &line[from..];
    if rest.len() < to - from {
        return rest;
    }
    &rest[..to - from]
}

// A token with its text.
fn piece_of(line: &[u8], token: Token) -> Piece<'_>
    ensures { shown_piece result ≡ piece line.now token }
{
    let text = slice_of(line, token.from, token.to);
    match token.kind {
        Kind::Name => Piece::Name(text),
        Kind::Directive => Piece::Directive(text),
        Kind::Number { value } => Piece::Number(value),
        Kind::Text => Piece::Quoted(text),
        Kind::Mark => Piece::Mark(if text.is_empty() { 0 } else { text[0] }),
    }
}

// The pieces of a line's tokens.
fn pieces_of<'a>(
    alloc: Global,
    line: &'a [u8],
    tokens: &[Token],
) -> Result<Vec<Piece<'a>>, AllocError>
    ensures { IfOk result (λ v. shown v.items ≡ pieces line.now tokens.now) }
{
    let mut found = Vec::new(alloc);
    for token in tokens {
        found.push(piece_of(line, *token))?;
    }
    Ok(found)
}

/// The pieces of a line, or none where it has a byte that begins no token.
pub(crate) fn read<'a>(alloc: Global, line: &'a [u8]) -> Result<Option<Vec<Piece<'a>>>, AllocError>
    ensures { (reading : Option (List Words)) → IsReadAs line.now reading → IfOk result (λ r. option_map (λ v. shown v.items) r ≡ reading) }
{
    match tokens(alloc, line) {
        Ok(found) => Ok(Some(pieces_of(alloc, line, found.as_slice())?)),
        Err(LexError::BadToken { at: _ }) => Ok(None),
        Err(LexError::Memory) => Err(AllocError),
    }
}
