//! The words of a listing.
ghost use Rattle.std.specs.Prelude.{◌≡◌, ℕ, ◌%◌, ◌<◌, ◌^◌, IsTrue, IfSome, [], length};
ghost use Rattle.psx_flow.specs.Tree.{Tree, flat, size};
ghost use Rattle.psx_flow.specs.Reading.{tree_of};
ghost use Rattle.psx_flow.specs.Well.{is_well};
ghost use Rattle.psx_flow.specs.Spaced.{is_spaced};
ghost use Rattle.psx_flow.specs.Lowered.{reaches, lowered};

use crate::emit::emit;
use crate::node::Node;
use arrayvec::ArrayVec;

/// Writes the words of a listing that stands at the address `at`: a branch for each If, Other, While and While's End, a jump
/// for each Call, Jump and JumpTo, and a nop in each slot. `words` has as many places as the listing has words, branches are
/// in reach, and the targets of Call and Jump are words' addresses in the 256 MB of the slots of their jumps.
pub fn lower(nodes: &[Node], at: u32, words: &mut [u32])
    requires well { IsTrue (is_well nodes.now) }
    requires spaced { IsTrue (is_spaced nodes.now) }
    requires few { length nodes.now < 2 ^ 31 }
    requires aligned { at % 4 ≡ 0 }
    requires room { IfSome (tree_of nodes.now) (λ tree. length words.old ≡ size tree) }
    requires reach { IfSome (tree_of nodes.now) (λ tree. IsTrue (reaches tree at)) }
    ensures { (tree : Tree) → flat tree [] ≡ nodes.now → words.new ≡ lowered tree at }
{
    let mut brackets = ArrayVec::new();
    let mut next = 0;
    for node in nodes {
        next = emit(*node, words, &mut brackets, next);
    }
}
