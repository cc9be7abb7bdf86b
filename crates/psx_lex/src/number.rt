//! The number without a sign that a text begins with.
ghost use Rattle.std.specs.Prelude.{◌≡◌, ◌≤◌, ◌<◌, ◌^◌, ◌==◌, ◌&&◌, true, IfSome, IfNone, slice_index};
ghost use Rattle.std.specs.Char.{is_ascii_hexdigit};
ghost use Rattle.std.specs.Option.{SomeIff};
ghost use Rattle.std.specs.Str.Parse.{IsNumeral, digits_value};
ghost use Rattle.psx_lex.specs.Magnitude.{IsLongestMagnitude, HasNoMagnitude};

use crate::bytes::hex_len;
use psx_text::{byte_at, digits_len, front, skip};
use std::str;

/// A number without its sign, and how many bytes it has.
#[derive(Clone, Copy)]
pub(crate) struct Unsigned {
    pub value: u64,
    pub len: usize,
}

// The number that digits write, where it has 64 bits.
fn value_of(digits: &[u8], radix: u32) -> Option<u64>
    requires least { 2 ≤ radix }
    requires most { radix ≤ 16 }
    requires digits { IsNumeral radix digits.now }
    ensures { SomeIff result (digits_value radix digits.now < 2 ^ 64) (digits_value radix digits.now) }
{
    let Ok(numeral) = str::from_utf8(digits) else {
        return None;
    };
    u64::from_str_radix(numeral, radix).ok()
}

// The byte in single quotes that a text begins with.
fn quoted(text: &[u8]) -> Option<Unsigned>
    requires { slice_index text.now 0 ≡ 39 }
    ensures found { IfSome result (λ m. IsLongestMagnitude text.now m.len m.value) }
    ensures none { IfNone result (HasNoMagnitude text.now) }
{
    let byte = byte_at(text, 1);
    if byte_at(text, 2) != b'\'' {
        return None;
    }
    if byte < 32 {
        return None;
    }
    if byte > 126 {
        return None;
    }
    if byte == b'\'' {
        return None;
    }
    if byte == b'\\' {
        return None;
    }
    let value = u64::from(byte);
    Some(Unsigned { value, len: 3 })
}

// The hexadecimal number that a text begins with.
fn hexadecimal(text: &[u8]) -> Option<Unsigned>
    requires zero { slice_index text.now 0 ≡ 48 }
    requires mark { slice_index text.now 1 ≡ 120 }
    requires digit { is_ascii_hexdigit (slice_index text.now 2) ≡ true }
    ensures found { IfSome result (λ m. IsLongestMagnitude text.now m.len m.value) }
    ensures none { IfNone result (HasNoMagnitude text.now) }
{
    let digits = skip(text, 2);
    let len = hex_len(digits);
    let Some(value) = value_of(front(digits, len), 16) else {
        return None;
    };
    let len = len + 2;
    Some(Unsigned { value, len })
}

// Whether a text begins with 0x and a hexadecimal digit.
fn is_hexadecimal(text: &[u8]) -> bool
    ensures { result ≡ (slice_index text.now 0 == 48 && (slice_index text.now 1 == 120 && is_ascii_hexdigit (slice_index text.now 2))) }
{
    byte_at(text, 0) == b'0' && (byte_at(text, 1) == b'x' && byte_at(text, 2).is_ascii_hexdigit())
}

// The number without a sign that a text begins with, where it has 64 bits.
pub(crate) fn magnitude(text: &[u8]) -> Option<Unsigned>
    ensures found { IfSome result (λ m. IsLongestMagnitude text.now m.len m.value) }
    ensures none { IfNone result (HasNoMagnitude text.now) }
{
    if byte_at(text, 0) == b'\'' {
        return quoted(text);
    }
    if is_hexadecimal(text) {
        return hexadecimal(text);
    }
    let len = digits_len(text);
    if len == 0 {
        return None;
    }
    let Some(value) = value_of(front(text, len), 10) else {
        return None;
    };
    Some(Unsigned { value, len })
}
