//! The tokens of a line.
ghost use Rattle.std.specs.Prelude.{◌≡◌, ◌⊎◌, List, Result, Ok, Err, IfOk, IfErr, MatchResult};
ghost use Rattle.psx_lex.specs.declared.token.Token.{Token};
ghost use Rattle.psx_lex.specs.declared.token.LexError.{LexError};
ghost use Rattle.psx_lex.specs.Line.{is_blank, IsTokensOf, HasOneAnswer};

use crate::first::first_token;
use crate::token::{LexError, Token};
use psx_text::{byte_at, skip};
use std::alloc::Global;

// Whether a byte parts tokens.
fn is_blank(byte: u8) -> bool
    ensures { result ≡ is_blank byte }
{
    byte == b' ' || (byte == b'\t' || byte == b',')
}

/// The law of a line's tokens: each line has one list of them, or one first byte that begins none. The call does nothing.
pub fn tokens_or_fault(line: &[u8])
    ensures { HasOneAnswer line.now }
{}

/// The tokens of a line, in order, or the first byte that begins none. A line has no line feed: one that isn't in a comment begins no token.
/// Where memory is short, `Memory` comes in their place.
pub fn tokens(alloc: Global, line: &[u8]) -> Result<Vec<Token>, LexError>
    ensures tokens { IfOk result (λ tokens. IsTokensOf line.now (Ok tokens.items)) }
    ensures fault { IfErr result (λ e. (e ≡ LexError.Memory) ⊎ IsTokensOf line.now (Err e)) }
    ensures only { (answer : Result (List Token) LexError) → IsTokensOf line.now answer
        → MatchResult result (λ tokens. answer ≡ Ok tokens.items) (λ e. (e ≡ LexError.Memory) ⊎ (answer ≡ Err e)) }
{
    let mut tokens = Vec::new(alloc);
    let mut at = 0;
    while at < line.len() {
        let byte = byte_at(line, at);
        if byte == b'#' {
            break;
        }
        if is_blank(byte) {
            at += 1;
            continue;
        }
        let Some(first) = first_token(skip(line, at)) else {
            return Err(LexError::BadToken { at });
        };
        let to = at + first.len;
        let token = Token {
            kind: first.kind,
            from: at,
            to,
        };
        let Ok(()) = tokens.push(token) else {
            return Err(LexError::Memory);
        };
        at = to;
    }
    Ok(tokens)
}
