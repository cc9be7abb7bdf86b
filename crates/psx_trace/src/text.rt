//! Writers of a text of fixed room: bytes, letters, words and counts.
ghost use Rattle.std.specs.Prelude.{◌≡◌, ◌≤◌, ◌+◌, ◌++◌, length, decimal};
ghost use Rattle.arrayvec.specs.ArrayVec.{array_vec_len};
ghost use Rattle.psx_trace.specs.Digits.{field, mark};

use arrayvec::ArrayVec;
use psx_text::{hex_digit, put};

/// The bytes of a line. The longest line has 338.
pub type TraceLine = ArrayVec<u8, 384>;

/// Appends a space and a word in eight hexadecimal digits with capitals.
#[tactic(auto, unfolding(psx_text::specs::Digits::hex8))]
pub fn put_field<const N: usize>(text: &mut ArrayVec<u8, N>, word: u32)
    requires { array_vec_len text.old + 9 ≤ N }
    ensures items { text.new.items ≡ text.old.items ++ field word }
    ensures len { array_vec_len text.new ≡ array_vec_len text.old + 9 }
{
    put(
        text,
        &[
            b' ',
            hex_digit(word / 0x1000_0000),
            hex_digit(word / 0x100_0000 % 16),
            hex_digit(word / 0x10_0000 % 16),
            hex_digit(word / 0x1_0000 % 16),
            hex_digit(word / 0x1000 % 16),
            hex_digit(word / 0x100 % 16),
            hex_digit(word / 0x10 % 16),
            hex_digit(word % 16),
        ],
    );
}

// Appends a space and a letter.
pub(crate) fn put_mark<const N: usize>(text: &mut ArrayVec<u8, N>, letter: u8)
    requires { array_vec_len text.old + 2 ≤ N }
    ensures items { text.new.items ≡ text.old.items ++ mark letter }
    ensures len { array_vec_len text.new ≡ array_vec_len text.old + 2 }
{
    put(text, &[b' ', letter]);
}

// Appends a count in decimal without leading zeros.
#[tactic(auto, using(crate::proofs::DecimalSteps::decimal_one))]
pub(crate) fn put_count(text: &mut TraceLine, count: u64)
    requires { array_vec_len text.old + length (decimal count) ≤ 384 }
    ensures items { text.new.items ≡ text.old.items ++ decimal count }
    ensures len { array_vec_len text.new ≡ array_vec_len text.old + length (decimal count) }
{
    if count < 10 {
        text.push(b'0' + count as u8);
        return;
    }
    put_count(text, count / 10);
    text.push(b'0' + (count % 10) as u8);
}
