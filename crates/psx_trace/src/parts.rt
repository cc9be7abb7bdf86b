//! Numbers read from a text. Where no number stands, each gives some number: what is read is compared with its own line.
ghost use Rattle.std.specs.Prelude.{◌≡◌, ◌≤◌, ◌<◌, ◌+◌, ◌*◌, ◌^◌, ℕ, List, ◌++◌, drop, slice_index};
ghost use Rattle.psx_text.specs.Digits.{hex_digit};
ghost use Rattle.psx_trace.specs.Digits.{field};

use psx_text::{byte_at, digit_value, skip};

// A number of four digits.
fn half_at(text: &[u8], at: usize) -> u32
    requires { at ≤ 8 }
    ensures below { result < 65536 }
    ensures half { (a b c d : ℕ) → a < 16 → b < 16 → c < 16 → d < 16
        → slice_index text.now at ≡ hex_digit a → slice_index text.now (at + 1) ≡ hex_digit b
        → slice_index text.now (at + 2) ≡ hex_digit c → slice_index text.now (at + 3) ≡ hex_digit d
        → result ≡ a * 4096 + b * 256 + c * 16 + d }
{
    let a = digit_value(byte_at(text, at)) as u32;
    let b = digit_value(byte_at(text, at + 1)) as u32;
    let c = digit_value(byte_at(text, at + 2)) as u32;
    let d = digit_value(byte_at(text, at + 3)) as u32;
    a * 4096 + b * 256 + c * 16 + d
}

// The word behind a space.
fn word_of(text: &[u8]) -> u32
    ensures { (w : ℕ) (rest : List ℕ) → w < 2 ^ 32 → text.now ≡ field w ++ rest → result ≡ w }
{
    half_at(text, 1) * 0x1_0000 + half_at(text, 5)
}

// The word behind a space at a place.
pub(crate) fn word_after(text: &[u8], at: usize) -> u32
    ensures { (w : ℕ) (rest : List ℕ) → w < 2 ^ 32 → drop at text.now ≡ field w ++ rest → result ≡ w }
{
    word_of(skip(text, at))
}
