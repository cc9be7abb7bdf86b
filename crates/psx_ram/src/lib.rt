//! Main memory, scratchpad and ROM, by physical address.
//! It holds the bytes behind the memory map of the definitions, with numbers little-endian.
//! The processor fetches, loads and stores by it, and the board fills it.
#![tactic(auto)]

ghost use Rattle.std.specs.Prelude.{◌≡◌, ℕ, ◌+◌, ◌%◌, ◌<◌, ◌≤◌, length, slice_index, IsTrue, IfOk, replicate};
ghost use Rattle.psx_base.specs.Memory.{byte, half, word, put_byte, put_half, put_word, put_bytes, is_mapped};
ghost use Rattle.psx_ram.specs.Words.{word_at, with_word};
ghost use Rattle.psx_ram.specs.Parts.{zeros, reset_memory};

pub mod memory;

use psx_base::Memory;
use std::alloc::{AllocError, Global};
use std::marker::Model;

/// Whether `len` bytes from a physical address on all lie in main memory, in the scratchpad or in the ROM.
pub fn mapped(at: u32, len: u32) -> bool
    ensures { result ≡ is_mapped at len }
{
    let end = at as u64 + len as u64;
    end <= 0x20_0000
        || (at >= 0x1F80_0000 && end <= 0x1F80_0400)
        || (at >= 0x1FC0_0000 && end <= 0x1FC8_0000)
}

/// The board's memory. Contracts see it as one map from physical addresses to bytes.
#[derive(Drop)]
pub struct Ram {
    main: Vec<u8>,
    scratchpad: Vec<u8>,
    rom: Vec<u8>,
}

impl Model for Ram {
    ghost use Rattle.std.specs.Prelude.{◌≡◌, length};
    ghost use Rattle.psx_base.specs.Memory.{Memory, memory_code};
    ghost use Rattle.psx_ram.specs.Parts.{of_parts};

    ghost Value = { Memory };

    ghost coded = { memory_code };

    ghost view = { λ a. of_parts a.main.items a.scratchpad.items a.rom.items };

    ghost invariant = { λ a. (length a.main.items ≡ 0x200000) × (length a.scratchpad.items ≡ 0x400) × (length a.rom.items ≡ 0x80000) };
}

// So many bytes 0.
#[tactic(auto, unfolding(crate::specs::Parts::zeros))]
fn zeroed(alloc: Global, count: usize) -> Result<Vec<u8>, AllocError>
    ensures { IfOk result (λ v. v.items ≡ zeros count) }
{
    Ok(vec![in alloc; 0; count]?)
}

// The number of four bytes of a slice.
fn word_in(bytes: &[u8], i: usize) -> u32
    requires { i + 4 ≤ length bytes.now }
    ensures { result ≡ word_at bytes.now i }
{
    let low = bytes[i] as u32 + bytes[i + 1] as u32 * 0x100;
    low + bytes[i + 2] as u32 * 0x1_0000 + bytes[i + 3] as u32 * 0x100_0000
}

// Writes a number as four bytes of a slice.
fn set_word_in(bytes: &mut [u8], i: usize, value: u32)
    requires { i + 4 ≤ length bytes.old }
    ensures { bytes.new ≡ with_word bytes.old i value }
{
    bytes[i] = (value % 0x100) as u8;
    bytes[i + 1] = (value / 0x100 % 0x100) as u8;
    bytes[i + 2] = (value / 0x1_0000 % 0x100) as u8;
    bytes[i + 3] = (value / 0x100_0000) as u8;
}

impl Ram {
    /// The memory as the board begins with it: the ROM's bytes at 1FC00000h on, and every other byte 0.
    pub fn new(alloc: Global, rom: &[u8]) -> Result<Ram, Memory>
        requires { length rom.now ≡ 0x80000 }
        ensures { IfOk result (λ ram. ram ≡ reset_memory rom.now) }
    {
        Ram::reset(alloc, rom).map_err(|_| Memory)
    }

    // The same, with std's error.
    fn reset(alloc: Global, rom: &[u8]) -> Result<Ram, AllocError>
        requires { length rom.now ≡ 0x80000 }
        ensures { IfOk result (λ ram. ram ≡ reset_memory rom.now) }
    {
        let main = zeroed(alloc, 0x20_0000)?;
        let scratchpad = zeroed(alloc, 0x400)?;
        let rom = Vec::from_slice(alloc, rom)?;
        Ok(Ram {
            main,
            scratchpad,
            rom,
        })
    }

    /// The byte at a mapped address.
    pub fn byte(&self, at: u32) -> u8
        requires { IsTrue (is_mapped at 1) }
        ensures { result ≡ byte self.now at }
    {
        if at < 0x20_0000 {
            self.main[at as usize]
        } else if at < 0x1F80_0400 {
            self.scratchpad[(at - 0x1F80_0000) as usize]
        } else {
            self.rom[(at - 0x1FC0_0000) as usize]
        }
    }

    /// Writes a byte at a mapped address that isn't in the ROM.
    pub fn set_byte(&mut self, at: u32, value: u8)
        requires mapped { IsTrue (is_mapped at 1) }
        requires writable { at < 0x1FC00000 }
        ensures { self.new ≡ put_byte self.old at value }
    {
        if at < 0x20_0000 {
            self.main[at as usize] = value;
        } else {
            self.scratchpad[(at - 0x1F80_0000) as usize] = value;
        }
    }

    /// The number of two bytes from a mapped, even address on.
    #[tactic(auto, unfolding(psx_base::specs::Memory::half))]
    pub fn half(&self, at: u32) -> u16
        requires mapped { IsTrue (is_mapped at 2) }
        requires aligned { at % 2 ≡ 0 }
        ensures { result ≡ half self.now at }
    {
        self.byte(at) as u16 + self.byte(at + 1) as u16 * 0x100
    }

    /// The number of four bytes from a mapped address on that 4 divides.
    pub fn word(&self, at: u32) -> u32
        requires mapped { IsTrue (is_mapped at 4) }
        requires aligned { at % 4 ≡ 0 }
        ensures { result ≡ word self.now at }
    {
        if at < 0x20_0000 {
            word_in(&self.main, at as usize)
        } else if at < 0x1F80_0400 {
            word_in(&self.scratchpad, (at - 0x1F80_0000) as usize)
        } else {
            word_in(&self.rom, (at - 0x1FC0_0000) as usize)
        }
    }

    /// Writes a number as two bytes from a mapped, even address on that isn't in the ROM.
    #[tactic(auto, unfolding(psx_base::specs::Memory::put_half))]
    pub fn set_half(&mut self, at: u32, value: u16)
        requires mapped { IsTrue (is_mapped at 2) }
        requires aligned { at % 2 ≡ 0 }
        requires writable { at < 0x1FC00000 }
        ensures { self.new ≡ put_half self.old at value }
    {
        self.set_byte(at, (value % 0x100) as u8);
        self.set_byte(at + 1, (value / 0x100) as u8);
    }

    /// Writes a number as four bytes from a mapped address on that 4 divides and that isn't in the ROM.
    pub fn set_word(&mut self, at: u32, value: u32)
        requires mapped { IsTrue (is_mapped at 4) }
        requires aligned { at % 4 ≡ 0 }
        requires writable { at < 0x1FC00000 }
        ensures { self.new ≡ put_word self.old at value }
    {
        if at < 0x20_0000 {
            set_word_in(&mut self.main, at as usize, value);
        } else {
            set_word_in(&mut self.scratchpad, (at - 0x1F80_0000) as usize, value);
        }
    }

    /// Writes bytes from a mapped address on that isn't in the ROM.
    pub fn load(&mut self, at: u32, bytes: &[u8])
        requires mapped { IsTrue (is_mapped at (length bytes.now)) }
        requires writable { at < 0x1FC00000 }
        ensures { self.new ≡ put_bytes self.old at bytes.now }
    {
        for (i, byte) in bytes.iter().enumerate() {
            self.set_byte(at + i as u32, *byte);
        }
    }

    /// Writes `len` bytes 0 from a mapped address on that isn't in the ROM.
    pub fn fill(&mut self, at: u32, len: u32)
        requires mapped { IsTrue (is_mapped at len) }
        requires writable { at < 0x1FC00000 }
        ensures { self.new ≡ put_bytes self.old at (replicate len 0) }
    {
        for i in 0..len {
            self.set_byte(at + i, 0);
        }
    }

    /// The bytes of main memory.
    pub fn main(&self) -> &[u8]
        ensures len { length result.now ≡ 0x200000 }
        ensures bytes { (k : ℕ) → k < 0x200000 → slice_index result.now k ≡ byte self.now k }
    {
        &self.main
    }

    /// The bytes of the scratchpad.
    pub fn scratchpad(&self) -> &[u8]
        ensures len { length result.now ≡ 0x400 }
        ensures bytes { (k : ℕ) → k < 0x400 → slice_index result.now k ≡ byte self.now (0x1F800000 + k) }
    {
        &self.scratchpad
    }
}

#[cfg(test)]
mod tests;
