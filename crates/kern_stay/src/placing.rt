//! Words at their places in the kernel's block.
ghost use Rattle.std.specs.Prelude.{◌≡◌, ℕ, ◌+◌, ◌*◌, ◌/◌, ◌%◌, ◌^◌, ◌<◌, ◌≤◌, ◌∷◌, [], IsTrue, List, length, slice_set};
ghost use Rattle.psx_flow.specs.Tree.{size};
ghost use Rattle.psx_flow.specs.Well.{is_well};
ghost use Rattle.psx_flow.specs.Spaced.{is_spaced};
ghost use Rattle.psx_flow.specs.Lowered.{reaches};
ghost use Rattle.kern_layout.specs.BlockWords.{IsBlock};
ghost use Rattle.kern_stay.specs.Shared.{tree};
ghost use Rattle.kern_stay.specs.Words.{over, overlaid, listing};

use crate::places::CACHED;
use kern_layout::KernelBlock;
use psx_flow::{Node, lower, size_of};

/// Sets the words from an address on.
pub fn put_words(block: &mut KernelBlock, at: u32, words: &[u32])
    requires aligned { at % 4 ≡ 0 }
    requires within { at + 4 * length words.now ≤ 0x10000 }
    ensures { (f : ℕ → ℕ) → IsBlock block.old f → IsBlock block.new (over at words.now f) }
{
    let mut place = at;
    for word in words {
        block.put_word(place, *word);
        place += 4;
    }
}

// Sets the words of a listing that runs at an address of the cached segment. `words` has as many places as it has words.
fn put_lowered(block: &mut KernelBlock, at: u32, nodes: &[Node], words: &mut [u32])
    requires well { IsTrue (is_well nodes.now) }
    requires spaced { IsTrue (is_spaced nodes.now) }
    requires few { length nodes.now < 2 ^ 31 }
    requires aligned { at % 4 ≡ 0 }
    requires cached { (0x80000000 ≤ at) × (at + 4 * size (tree nodes.now) ≤ 0x80010000) }
    requires room { length words.old ≡ size (tree nodes.now) }
    requires reach { IsTrue (reaches (tree nodes.now) at) }
    ensures { (f : ℕ → ℕ) → IsBlock block.old f → IsBlock block.new (overlaid (listing at nodes.now ∷ []) f) }
{
    lower(nodes, at, words);
    put_words(block, at - CACHED, words);
}

/// Sets the words of a listing of at most 80 words, which runs at an address of the cached segment.
pub fn put_listing(block: &mut KernelBlock, at: u32, nodes: &[Node])
    requires well { IsTrue (is_well nodes.now) }
    requires spaced { IsTrue (is_spaced nodes.now) }
    requires few { length nodes.now < 2 ^ 31 }
    requires aligned { at % 4 ≡ 0 }
    requires cached { (0x80000000 ≤ at) × (at + 4 * size (tree nodes.now) ≤ 0x80010000) }
    requires room { size (tree nodes.now) ≤ 80 }
    requires reach { IsTrue (reaches (tree nodes.now) at) }
    ensures { (f : ℕ → ℕ) → IsBlock block.old f → IsBlock block.new (overlaid (listing at nodes.now ∷ []) f) }
{
    let mut words = [0u32; 80];
    let size = size_of(nodes) as usize;
    put_lowered(block, at, nodes, &mut words[..size]);
}
