//! The kernel's block of 64 KB, as words.
ghost use Rattle.std.specs.Prelude.{◌≡◌, ℕ, ◌<◌, ◌/◌, ◌%◌, List, length, replicate, slice_set, slice_index, IfOk};
ghost use Rattle.kern_layout.specs.BlockWords.{IsBlock};
ghost use Rattle.kern_layout.specs.declared.block.TheConstants.{BLOCK_WORDS};

use psx_base::Memory;
use std::alloc::Global;
use std::marker::Model;

/// How many words the block has.
const BLOCK_WORDS: usize = 0x4000;

/// The kernel's block: 16,384 words, addressed in bytes from 0. Contracts see it as the list of its words.
#[derive(Drop)]
pub struct KernelBlock {
    words: Vec<u32>,
}

impl Model for KernelBlock {
    ghost Value = { List ℕ };

    ghost view = { λ b. b.words.items };

    ghost invariant = { λ b. length b.words.items ≡ BLOCK_WORDS };
}

fn zeros(alloc: Global, len: usize) -> Result<Vec<u32>, Memory>
    ensures { IfOk result (λ v. v.items ≡ replicate len 0) }
{
    match vec![in alloc; 0u32; len] {
        Ok(words) => Ok(words),
        Err(_) => Err(Memory),
    }
}

impl KernelBlock {
    /// A block of zeros.
    pub fn new(alloc: Global) -> Result<KernelBlock, Memory>
        ensures { IfOk result (λ b. IsBlock b (λ at. 0)) }
    {
        Ok(KernelBlock {
            words: zeros(alloc, BLOCK_WORDS)?,
        })
    }

    /// Sets the word at an address of the block, a multiple of 4. Every other word stays.
    pub fn put_word(&mut self, at: u32, word: u32)
        requires aligned { at % 4 ≡ 0 }
        requires within { at < 0x10000 }
        ensures set { self.new ≡ slice_set self.old (at / 4) word }
        ensures size { length self.new ≡ 0x4000 }
    {
        self.words[(at / 4) as usize] = word;
    }

    /// The word at an address of the block, a multiple of 4.
    pub fn word(&self, at: u32) -> u32
        requires aligned { at % 4 ≡ 0 }
        requires within { at < 0x10000 }
        ensures { result ≡ slice_index self.now (at / 4) }
    {
        let place = (at / 4) as usize;
        self.words[place]
    }
}
