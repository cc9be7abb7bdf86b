//! Where branches and jumps go.
ghost use Rattle.std.specs.Prelude.{◌≡◌, ◌≤◌, ◌<◌, ◌^◌};
ghost use Rattle.psx_dis.specs.Targets.{jump_target, branch_target};

/// The address that the 26 bits of a jump give, whose delay slot has this address, at most 2^32.
pub fn jump_target(slot: u64, target: u32) -> u32
    requires slot { slot ≤ 2 ^ 32 }
    requires target { target < 2 ^ 26 }
    ensures { result ≡ jump_target slot target }
{
    let region = slot % 0x1_0000_0000 / 0x1000_0000 * 0x1000_0000;
    region as u32 + target * 4
}

/// The address to which the 16 bits of a branch go, as signed words from its delay slot on, whose address is at most 2^32.
/// None where that passes an end of the 32 bits.
pub fn branch_target(slot: u64, imm: u16) -> Option<u32>
    requires { slot ≤ 2 ^ 32 }
    ensures { result ≡ branch_target slot imm }
{
    if imm < 0x8000 {
        let target = slot + 4 * imm as u64;
        if target < 0x1_0000_0000 {
            return Some(target as u32);
        }
        return None;
    }
    let back = 4 * (0x1_0000 - imm as u64);
    if back <= slot {
        Some((slot - back) as u32)
    } else {
        None
    }
}
