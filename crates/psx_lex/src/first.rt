//! The token that a text begins with.
ghost use Rattle.std.specs.Prelude.{◌≡◌, ◌≤◌, true, IfSome, IfNone, slice_index};
ghost use Rattle.psx_lex.specs.Lexeme.{is_name_start, BeginsToken, BeginsNone};
ghost use Rattle.psx_lex.specs.Magnitude.{BeginsNoOther};

use crate::bytes::{is_escape, is_mark, is_start, name_len};
use crate::number::magnitude;
use crate::token::Kind;
use psx_text::{byte_at, skip};

/// The kind of a token, and how many bytes it has.
#[derive(Clone, Copy)]
pub(crate) struct Lexeme {
    pub kind: Kind,
    pub len: usize,
}

// The name that a text begins with.
fn name(text: &[u8]) -> Option<Lexeme>
    requires { is_name_start (slice_index text.now 0) ≡ true }
    ensures found { IfSome result (λ t. BeginsToken text.now t.kind t.len) }
    ensures none { IfNone result (BeginsNone text.now) }
{
    let len = name_len(text);
    if len > 63 {
        return None;
    }
    let kind = Kind::Name;
    Some(Lexeme { kind, len })
}

// The directive that a text begins with.
fn directive(text: &[u8]) -> Option<Lexeme>
    requires { slice_index text.now 0 ≡ 46 }
    ensures found { IfSome result (λ t. BeginsToken text.now t.kind t.len) }
    ensures none { IfNone result (BeginsNone text.now) }
{
    if !is_start(byte_at(text, 1)) {
        return None;
    }
    let len = name_len(skip(text, 1));
    if len > 63 {
        return None;
    }
    let kind = Kind::Directive;
    let len = len + 1;
    Some(Lexeme { kind, len })
}

// The text in double quotes that a text begins with.
fn quoted(text: &[u8]) -> Option<Lexeme>
    requires { slice_index text.now 0 ≡ 34 }
    ensures found { IfSome result (λ t. BeginsToken text.now t.kind t.len) }
    ensures none { IfNone result (BeginsNone text.now) }
{
    let mut escaped = false;
    for (i, byte) in skip(text, 1).iter().enumerate() {
        if escaped {
            if !is_escape(*byte) {
                return None;
            }
            escaped = false;
            continue;
        }
        if *byte == b'"' {
            let kind = Kind::Text;
            let len = i + 2;
            return Some(Lexeme { kind, len });
        }
        if *byte < 32 {
            return None;
        }
        escaped = *byte == b'\\';
    }
    None
}

// The number that a text begins with.
fn number(text: &[u8]) -> Option<Lexeme>
    requires { BeginsNoOther (slice_index text.now 0) }
    ensures found { IfSome result (λ t. BeginsToken text.now t.kind t.len) }
    ensures none { IfNone result (BeginsNone text.now) }
{
    if byte_at(text, 0) == b'-' {
        let Some(read) = magnitude(skip(text, 1)) else {
            return None;
        };
        if read.value > 2_147_483_648 {
            return None;
        }
        let kind = Kind::Number {
            value: -(read.value as i64),
        };
        let len = read.len + 1;
        return Some(Lexeme { kind, len });
    }
    let Some(read) = magnitude(text) else {
        return None;
    };
    if read.value > 4_294_967_295 {
        return None;
    }
    let kind = Kind::Number {
        value: read.value as i64,
    };
    let len = read.len;
    Some(Lexeme { kind, len })
}

/// The token that a text begins with.
pub(crate) fn first_token(text: &[u8]) -> Option<Lexeme>
    ensures found { IfSome result (λ t. BeginsToken text.now t.kind t.len) }
    ensures none { IfNone result (BeginsNone text.now) }
{
    let first = byte_at(text, 0);
    if is_start(first) {
        return name(text);
    }
    if first == b'.' {
        return directive(text);
    }
    if first == b'"' {
        return quoted(text);
    }
    if is_mark(first) {
        let kind = Kind::Mark;
        return Some(Lexeme { kind, len: 1 });
    }
    number(text)
}
