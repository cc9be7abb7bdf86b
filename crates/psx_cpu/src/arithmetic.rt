//! What the arithmetic instructions compute.
ghost use Rattle.std.specs.Prelude.{◌≡◌, ◌+◌, ◌-◌, ◌*◌, ◌/◌, ◌%◌, ◌^◌, ◌<◌, ◌+ℤ◌, ◌-ℤ◌, ◌*ℤ◌, ◌||◌, int_lt, nat_lt, nat_le, nat_eq, bit_or, not};
ghost use Rattle.std.specs.Int.{w64, cast_unsigned};
ghost use Rattle.psx_cpu.specs.Words;
ghost use Rattle.psx_cpu.specs.Words.{signed, has_word};

// Whether the signed sum doesn't fit.
pub(crate) fn sum_overflows(s: u32, t: u32) -> bool
    ensures { result ≡ not (has_word (signed s +ℤ signed t)) }
{
    s.cast_signed().checked_add(t.cast_signed()).is_none()
}

// Whether the signed difference doesn't fit.
pub(crate) fn difference_overflows(s: u32, t: u32) -> bool
    ensures { result ≡ not (has_word (signed s -ℤ signed t)) }
{
    s.cast_signed().checked_sub(t.cast_signed()).is_none()
}

// 8 bits with the sign copied.
#[inline]
pub(crate) fn byte_extended(value: u8) -> u32
    ensures { result ≡ Words.byte_extended value }
{
    if value < 0x80 {
        value as u32
    } else {
        value as u32 + 0xFFFF_FF00
    }
}

// 16 bits with the sign copied.
#[inline]
pub(crate) fn sign_extended(imm: u16) -> u32
    ensures { result ≡ Words.sign_extended imm }
{
    if imm < 0x8000 {
        imm as u32
    } else {
        imm as u32 + 0xFFFF_0000
    }
}

// Shifted left, and what passes 32 bits is lost.
#[inline]
pub(crate) fn shifted_left(t: u32, n: u32) -> u32
    requires { n < 32 }
    ensures { result ≡ t * 2 ^ n % 2 ^ 32 }
{
    t << n
}

// Shifted right, with zeros.
#[inline]
pub(crate) fn shifted_right(t: u32, n: u32) -> u32
    requires { n < 32 }
    ensures { result ≡ t / 2 ^ n }
{
    t >> n
}

// Shifted right, with the sign copied.
#[inline]
pub(crate) fn shifted_signed(t: u32, n: u32) -> u32
    requires { n < 32 }
    ensures { result ≡ Words.shifted_signed t n }
{
    if t < 0x8000_0000 { t >> n } else { !(!t >> n) }
}

// 1 where s is less, both signed, else 0.
#[inline]
pub(crate) fn is_less_signed(s: u32, t: u32) -> u32
    ensures { result ≡ Words.truth (int_lt (signed s) (signed t)) }
{
    (s ^ 0x8000_0000 < t ^ 0x8000_0000) as u32
}

// 1 where s is less, else 0.
#[inline]
pub(crate) fn is_less(s: u32, t: u32) -> u32
    ensures { result ≡ Words.truth (nat_lt s t) }
{
    (s < t) as u32
}

#[inline]
pub(crate) fn is_negative(s: u32) -> bool
    ensures { result ≡ nat_le (2 ^ 31) s }
{
    s >= 0x8000_0000
}

// Whether a signed word is 0 or less.
#[inline]
pub(crate) fn is_not_above(s: u32) -> bool
    ensures { result ≡ (nat_le (2 ^ 31) s || nat_eq s 0) }
{
    s >= 0x8000_0000 || s == 0
}

#[inline]
pub(crate) fn nor(s: u32, t: u32) -> u32
    ensures { result ≡ 2 ^ 32 - 1 - bit_or s t }
{
    !(s | t)
}

// The high and the low word of the product.
pub(crate) fn product_unsigned(s: u32, t: u32) -> (u32, u32)
    ensures hi { result.0 ≡ s * t / 2 ^ 32 }
    ensures lo { result.1 ≡ s * t % 2 ^ 32 }
{
    let product = s as u64 * t as u64;
    ((product >> 32) as u32, (product % 0x1_0000_0000) as u32)
}

fn widened(s: u32) -> i64
    ensures { result ≡ signed s }
{
    s.cast_signed() as i64
}

// The product of signed words, as 64 bits.
pub(crate) fn product_signed(s: u32, t: u32) -> u64
    ensures { result ≡ cast_unsigned w64 (signed s *ℤ signed t) }
{
    (widened(s) * widened(t)).cast_unsigned()
}

pub(crate) fn quotient(s: u32, t: u32) -> u32
    ensures { result ≡ Words.quotient s t }
{
    if t == 0 { 0xFFFF_FFFF } else { s / t }
}

pub(crate) fn quotient_signed(s: u32, t: u32) -> u32
    ensures { result ≡ Words.quotient_signed s t }
{
    if t == 0 {
        if s < 0x8000_0000 { 0xFFFF_FFFF } else { 1 }
    } else {
        s.cast_signed()
            .wrapping_div(t.cast_signed())
            .cast_unsigned()
    }
}

pub(crate) fn remainder(s: u32, t: u32) -> u32
    ensures { result ≡ Words.remainder s t }
{
    if t == 0 { s } else { s % t }
}

pub(crate) fn remainder_signed(s: u32, t: u32) -> u32
    ensures { result ≡ Words.remainder_signed s t }
{
    if t == 0 {
        s
    } else {
        s.cast_signed()
            .wrapping_rem(t.cast_signed())
            .cast_unsigned()
    }
}
