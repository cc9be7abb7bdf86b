//! How many words a listing has.
ghost use Rattle.std.specs.Prelude.{◌≡◌, ℕ, ◌<◌, ◌≤◌, ◌^◌, IsTrue, [], length};
ghost use Rattle.psx_flow.specs.Tree.{Tree, flat, size};
ghost use Rattle.psx_flow.specs.Well.{is_well};
ghost use Rattle.psx_flow.specs.Lowered.{lowered};
ghost use Rattle.psx_flow.specs.Nodes.{weight};

use crate::node::Node;

// The words of a node with its slots, those of a While's End among the While's.
fn words_of(node: Node) -> u64
    ensures value { result ≡ weight node }
    ensures few { result ≤ 4 }
{
    match node {
        Node::Op(_) => 1,
        Node::If(_) | Node::Other | Node::Call(_) | Node::Jump(_) | Node::JumpTo(_) => 2,
        Node::While(_) => 4,
        Node::End => 0,
    }
}

/// The number of words of a listing, wherever it stands.
pub fn size_of(nodes: &[Node]) -> u32
    requires well { IsTrue (is_well nodes.now) }
    requires few { length nodes.now < 2 ^ 31 }
    ensures value { (tree : Tree) → flat tree [] ≡ nodes.now → result ≡ size tree }
    ensures words { (tree : Tree) (at : ℕ) → flat tree [] ≡ nodes.now → result ≡ length (lowered tree at) }
{
    let mut sum = 0;
    for node in nodes {
        sum += words_of(*node);
    }
    sum as u32
}
