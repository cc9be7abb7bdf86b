//! The image: the kernel's words at their places, and the bytes of the ROM.
ghost use Rattle.std.specs.Prelude.{◌≡◌, ℕ, ◌<◌, ◌*◌, ◌/◌, ◌%◌, ◌^◌, List, length, flat_map, slice_index, IfOk};
ghost use Rattle.byteorder.specs.Endian.{little_bytes};
ghost use Rattle.kern_image.specs.Words.{HasWords};
ghost use Rattle.kern_image.specs.Rom.{kernel_word, rom, rom_word, rom_words};

use crate::boot::BOOT;
use crate::tables::place_tables;
use byteorder::{ByteOrder, LittleEndian};
use kern_entry::{place_code, place_vector};
use kern_layout::{KernelBlock, put_opening};
use psx_base::Memory;
use std::alloc::{AllocError, Global};
use std::marker::Model;

/// How many words the ROM has.
const ROM_WORDS: u32 = 0x2_0000;

/// The offset at which the kernel's block begins in the ROM.
const BLOCK_FROM: u32 = 0x1_0000;

/// The offset behind the kernel's block.
const BLOCK_TO: u32 = 0x2_0000;

/// The bytes of the ROM. Each image is the same one.
#[derive(Drop)]
pub struct Image {
    bytes: Vec<u8>,
}

impl Model for Image {
    ghost Value = { List ℕ };

    ghost view = { λ i. i.bytes.items };

    ghost invariant = { λ i. i.bytes.items ≡ rom };
}

impl Image {
    /// The 512 KB of the ROM, in the order of its addresses, from 1FC00000h on.
    pub fn rom(&self) -> &[u8]
        ensures bytes { result.now ≡ rom }
        ensures length { length result.now ≡ 0x80000 }
    {
        &self.bytes
    }
}

// The kernel's block: the words of the kernel's code, and the opening values.
fn kernel(alloc: Global) -> Result<KernelBlock, Memory>
    ensures { IfOk result (λ b. HasWords b kernel_word) }
{
    let mut block = KernelBlock::new(alloc)?;
    kern_file::place(&mut block);
    kern_heap::place(&mut block);
    kern_printf::place(&mut block);
    kern_text::place(&mut block);
    kern_mem::place(&mut block);
    kern_timer::place(&mut block);
    kern_event::place(&mut block);
    kern_thread::place(&mut block);
    place_code(&mut block);
    place_tables(&mut block);
    place_vector(&mut block);
    put_opening(&mut block);
    Ok(block)
}

// The word of a list at an offset, and 0 behind it.
fn word_in(words: &[u32], offset: u32) -> u32
    requires { length words.now < 2 ^ 32 }
    ensures { result ≡ slice_index words.now (offset / 4) }
{
    let place = (offset / 4) as usize;
    if place < words.len() { words[place] } else { 0 }
}

// The word of the ROM at an offset, a multiple of 4.
#[tactic(auto, unfolding(crate::specs::Rom::rom_word, crate::specs::Rom::boot_word))]
fn word_at(block: &KernelBlock, offset: u32) -> u32
    requires block { HasWords block.now kernel_word }
    requires aligned { offset % 4 ≡ 0 }
    ensures { result ≡ rom_word offset }
{
    if offset < BLOCK_FROM {
        return word_in(&BOOT, offset);
    }
    if offset < BLOCK_TO {
        return block.word(offset - BLOCK_FROM);
    }
    0
}

// The words of the ROM, in their order.
fn words_of(alloc: Global, block: &KernelBlock) -> Result<Vec<u32>, AllocError>
    requires { HasWords block.now kernel_word }
    ensures { IfOk result (λ v. v.items ≡ rom_words) }
{
    let mut words = Vec::with_capacity(alloc, ROM_WORDS as usize)?;
    for place in 0..ROM_WORDS {
        words.push(word_at(block, 4 * place))?;
    }
    Ok(words)
}

// The bytes of words, each word with its lowest byte first.
fn bytes_of(alloc: Global, words: &[u32]) -> Result<Vec<u8>, AllocError>
    requires { length words.now < 2 ^ 32 }
    ensures { IfOk result (λ v. v.items ≡ flat_map (little_bytes 4) words.now) }
{
    let mut bytes = vec![in alloc; 0u8; 4 * words.len()]?;
    LittleEndian::write_u32_into(words, &mut bytes);
    Ok(bytes)
}

// The bytes of the ROM.
fn rom_bytes(alloc: Global, block: &KernelBlock) -> Result<Vec<u8>, AllocError>
    requires { HasWords block.now kernel_word }
    ensures { IfOk result (λ v. v.items ≡ rom) }
{
    let words = words_of(alloc, block)?;
    bytes_of(alloc, &words)
}

/// The image. It takes 512 KB, and 576 KB more while it is built.
pub fn build(alloc: Global) -> Result<Image, Memory>
    ensures { IfOk result (λ i. i ≡ rom) }
{
    let block = kernel(alloc)?;
    let Ok(bytes) = rom_bytes(alloc, &block) else {
        return Err(Memory);
    };
    Ok(Image { bytes })
}
