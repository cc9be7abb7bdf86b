//! A counter's values as laps: numbers below 2^16 that rise to a limit and begin again at 0.
ghost use Rattle.std.specs.Prelude.{◌≡◌, ◌^◌, ◌<◌, ◌≤◌, IfSome, IfNone};
ghost use Rattle.psx_ports.specs.Laps.{top_of, lap, IsFirst, IsNever};

// The last value of the first lap: one behind the limit goes on to FFFFh.
fn top(value: u32, limit: u32) -> u32
    ensures { result ≡ top_of value limit }
{
    if value <= limit { limit } else { 0xFFFF }
}

/// The value after some turns.
pub fn run(value: u32, limit: u32, turns: u64) -> u32
    requires value { value < 2 ^ 16 }
    requires limit { limit < 2 ^ 16 }
    ensures value { result ≡ lap value limit turns }
    ensures fits { result < 2 ^ 16 }
{
    let left = (top(value, limit) - value) as u64;
    if turns <= left {
        value + turns as u32
    } else {
        ((turns - left - 1) % (limit as u64 + 1)) as u32
    }
}

/// The number of turns, at least 1, that first bring the value to x, or None where none does.
pub fn turns_to(value: u32, limit: u32, x: u32) -> Option<u32>
    requires value { value < 2 ^ 16 }
    requires limit { limit < 2 ^ 16 }
    requires x { x < 2 ^ 16 }
    ensures some { IfSome result (IsFirst value limit x) }
    ensures none { IfNone result (IsNever value limit x) }
{
    let top = top(value, limit);
    if value < x && x <= top {
        return Some(x - value);
    }
    if x <= limit {
        Some(top - value + 1 + x)
    } else {
        None
    }
}
