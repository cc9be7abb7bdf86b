//! Numbers in the ranges of their places.
ghost use Rattle.std.specs.Prelude.{◌≡◌, ◌≤◌, ◌^◌, ◌<ℤ◌, pos, negsuc};
ghost use Rattle.psx_asm.specs.Numbers.{low_word, below, signed_16, either_sign};

// What a negative number is less than -1 by.
fn past(n: i128) -> u128
    requires { n <ℤ pos 0 }
    ensures { n ≡ negsuc result }
{
    (-(n + 1)) as u128
}

/// The low 32 bits.
pub(crate) fn low_word(n: i128) -> u32
    ensures { result ≡ low_word n }
{
    if n < 0 {
        return (4_294_967_295 - past(n) % 4_294_967_296) as u32;
    }
    (n as u128 % 4_294_967_296) as u32
}

/// A number that isn't negative and is below a limit.
pub(crate) fn below(limit: u64, n: i64) -> Option<u32>
    requires { limit ≤ 2 ^ 32 }
    ensures { result ≡ below limit n }
{
    if n < 0 {
        return None;
    }
    if (n as u64) < limit {
        return Some(n as u32);
    }
    None
}

/// The 16 bits of a number with a sign.
pub(crate) fn signed_16(n: i64) -> Option<u16>
    ensures { result ≡ signed_16 n }
{
    if n < 0 {
        let less = past(n as i128);
        if less < 32_768 {
            return Some((65_535 - less) as u16);
        }
        return None;
    }
    if n < 32_768 {
        return Some(n as u16);
    }
    None
}

/// The bits of a number below a limit, or of a negative one from minus half the limit on.
pub(crate) fn either_sign(limit: u32, n: i128) -> Option<u32>
    ensures { result ≡ either_sign limit n }
{
    if n < 0 {
        let less = past(n);
        if less < (limit / 2) as u128 {
            return Some(limit - 1 - less as u32);
        }
        return None;
    }
    if n < limit as i128 {
        return Some(n as u32);
    }
    None
}
