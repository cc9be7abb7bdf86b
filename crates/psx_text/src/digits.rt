//! The digits of numbers.
ghost use Rattle.std.specs.Prelude.{◌≡◌, ◌<◌, ◌^◌, ℕ, decimal};
ghost use Rattle.std.specs.Char.{is_ascii_digit};
ghost use Rattle.std.specs.List.{prefix_len};
ghost use Rattle.psx_text.specs.Digits.{hex_digit};

use std::str;

/// The hexadecimal digit of a number below 16, with capitals.
pub fn hex_digit(number: u32) -> u8
    requires { number < 16 }
    ensures digit { result ≡ hex_digit number }
    ensures ascii { result < 128 }
{
    if number < 10 {
        b'0' + number as u8
    } else {
        b'A' - 10 + number as u8
    }
}

/// The number below 16 that a hexadecimal digit with capitals is. Another byte gives some number below 16.
pub fn digit_value(byte: u8) -> u8
    ensures below { result < 16 }
    ensures digit { (d : ℕ) → d < 16 → byte ≡ hex_digit d → result ≡ d }
{
    if byte < b'A' {
        byte % 16
    } else {
        (byte - (b'A' - 10)) % 16
    }
}

/// How many decimal digits a text begins with.
pub fn digits_len(text: &[u8]) -> usize
    ensures { result ≡ prefix_len is_ascii_digit text.now }
{
    text.iter().take_while(|byte| byte.is_ascii_digit()).count()
}

/// The number of 64 bits that decimal digits write without leading zeros. Another text gives some number.
pub fn count_of(digits: &[u8]) -> u64
    ensures { (n : ℕ) → n < 2 ^ 64 → digits.now ≡ decimal n → result ≡ n }
{
    let Ok(numeral) = str::from_utf8(digits) else {
        return 0;
    };
    match numeral.parse::<u64>() {
        Ok(count) => count,
        Err(_) => 0,
    }
}
