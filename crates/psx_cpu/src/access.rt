//! What loads read and stores write.
ghost use Rattle.std.specs.Prelude.{◌≡◌, ◌+◌, ◌%◌, ◌^◌, ◌<◌, ◌≤◌};
ghost use Rattle.psx_base.specs.Memory.{is_mapped, is_writable};
ghost use Rattle.psx_cpu.specs.DataAccess;

use psx_base::Addr;
use psx_ram::Ram;

// Whether so many bytes can be read from a physical address on.
#[inline]
fn is_there(at: u32, len: u32) -> bool
    requires { (at ≤ 2 ^ 29) × (len ≤ 4) }
    ensures { result ≡ is_mapped at len }
{
    at + len <= 0x20_0000
        || (at >= 0x1F80_0000 && at + len <= 0x1F80_0400)
        || (at >= 0x1FC0_0000 && at + len <= 0x1FC8_0000)
}

// Whether a physical address can be written.
#[inline]
fn takes(at: u32) -> bool
    ensures { result ≡ is_writable at }
{
    at < 0x20_0000 || (at >= 0x1F80_0000 && at < 0x1F80_0400)
}

#[tactic(auto, unfolding(crate::specs::DataAccess::read_word))]
#[inline]
pub(crate) fn read_word(ram: &Ram, at: u32) -> u32
    requires { at % 4 ≡ 0 }
    ensures { result ≡ DataAccess.read_word ram.now at }
{
    // Most words are read from main memory in the cached segment.
    let low = at.wrapping_sub(0x8000_0000);
    if low < 0x20_0000 {
        return ram.word(low);
    }
    let to = Addr(at).place();
    if is_there(to, 4) { ram.word(to) } else { 0 }
}

#[tactic(auto, unfolding(crate::specs::DataAccess::read_half))]
#[inline]
pub(crate) fn read_half(ram: &Ram, at: u32) -> u16
    requires { at % 2 ≡ 0 }
    ensures { result ≡ DataAccess.read_half ram.now at }
{
    let to = Addr(at).place();
    if is_there(to, 2) { ram.half(to) } else { 0 }
}

#[tactic(auto, unfolding(crate::specs::DataAccess::read_byte))]
#[inline]
pub(crate) fn read_byte(ram: &Ram, at: u32) -> u8
    ensures { result ≡ DataAccess.read_byte ram.now at }
{
    let to = Addr(at).place();
    if is_there(to, 1) { ram.byte(to) } else { 0 }
}

#[tactic(auto, unfolding(crate::specs::DataAccess::write_word))]
#[inline]
pub(crate) fn write_word(ram: &mut Ram, at: u32, value: u32)
    requires { at % 4 ≡ 0 }
    ensures { ram.new ≡ DataAccess.write_word ram.old at value }
{
    let to = Addr(at).place();
    if takes(to) {
        ram.set_word(to, value);
    }
}

#[tactic(auto, unfolding(crate::specs::DataAccess::write_half))]
#[inline]
pub(crate) fn write_half(ram: &mut Ram, at: u32, value: u16)
    requires { at % 2 ≡ 0 }
    ensures { ram.new ≡ DataAccess.write_half ram.old at value }
{
    let to = Addr(at).place();
    if takes(to) {
        ram.set_half(to, value);
    }
}

#[tactic(auto, unfolding(crate::specs::DataAccess::write_byte))]
#[inline]
pub(crate) fn write_byte(ram: &mut Ram, at: u32, value: u8)
    ensures { ram.new ≡ DataAccess.write_byte ram.old at value }
{
    let to = Addr(at).place();
    if takes(to) {
        ram.set_byte(to, value);
    }
}

// What LWL gives.
pub(crate) fn loaded_left(k: u32, t: u32, word: u32) -> u32
    requires { k < 4 }
    ensures { result ≡ DataAccess.loaded_left k t word }
{
    match k {
        0 => t % 0x100_0000 + word % 0x100 * 0x100_0000,
        1 => t % 0x1_0000 + word % 0x1_0000 * 0x1_0000,
        2 => t % 0x100 + word % 0x100_0000 * 0x100,
        _ => word,
    }
}

// What LWR gives.
pub(crate) fn loaded_right(k: u32, t: u32, word: u32) -> u32
    requires { k < 4 }
    ensures { result ≡ DataAccess.loaded_right k t word }
{
    match k {
        0 => word,
        1 => t / 0x100_0000 * 0x100_0000 + word / 0x100,
        2 => t / 0x1_0000 * 0x1_0000 + word / 0x1_0000,
        _ => t / 0x100 * 0x100 + word / 0x100_0000,
    }
}

// What SWL stores.
pub(crate) fn stored_left(k: u32, t: u32, word: u32) -> u32
    requires { k < 4 }
    ensures { result ≡ DataAccess.stored_left k t word }
{
    match k {
        0 => word / 0x100 * 0x100 + t / 0x100_0000,
        1 => word / 0x1_0000 * 0x1_0000 + t / 0x1_0000,
        2 => word / 0x100_0000 * 0x100_0000 + t / 0x100,
        _ => t,
    }
}

// What SWR stores.
pub(crate) fn stored_right(k: u32, t: u32, word: u32) -> u32
    requires { k < 4 }
    ensures { result ≡ DataAccess.stored_right k t word }
{
    match k {
        0 => t,
        1 => word % 0x100 + t % 0x100_0000 * 0x100,
        2 => word % 0x1_0000 + t % 0x1_0000 * 0x1_0000,
        _ => word % 0x100_0000 + t % 0x100 * 0x100_0000,
    }
}
