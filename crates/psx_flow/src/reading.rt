//! Nodes and the tree that they spell.
ghost use Rattle.std.specs.Prelude.{◌≡◌, List, [], Some};
ghost use Rattle.psx_flow.specs.declared.node.Node.{Node};
ghost use Rattle.psx_flow.specs.Tree.{Tree, flat};
ghost use Rattle.psx_flow.specs.Reading.{tree_of};

/// The law of reading: what is read from nodes is the one tree that they spell. It does nothing.
pub fn reading_law()
    ensures read { (tree : Tree) → tree_of (flat tree []) ≡ Some tree }
    ensures spelled { (nodes : List Node) (tree : Tree) → tree_of nodes ≡ Some tree → flat tree [] ≡ nodes }
    ensures one { (nodes : List Node) (a b : Tree) → flat a [] ≡ nodes → flat b [] ≡ nodes → a ≡ b }
{}
