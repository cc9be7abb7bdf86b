//! Words of the kernel's data are copied from one block to another.
ghost use Rattle.std.specs.Prelude.{◌≡◌, IsTrue, IfSome};
ghost use Rattle.psx_flow.specs.Reading.{tree_of};
ghost use Rattle.psx_flow.specs.Well.{is_well};
ghost use Rattle.psx_flow.specs.Spaced.{is_spaced};
ghost use Rattle.kern_stay.specs.declared.copy.TheConstants.{COPY_NODES};
ghost use Rattle.kern_stay.specs.Copy.{CopiesWords};
ghost use Rattle.kern_stay.specs.Switch.{Switches};

use psx_flow::{Node, Test, op, register};

/// r8 is where the words are, r10 where they end, r9 where they go to, which goes on behind the last one. r12 is changed.
pub const COPY_NODES: [Node; 7] = [
    Node::While(Test::Differ(register!(r8), register!(r10))),
    op!(LW r12, 0(r8)),
    op!(ADDIU r8, r8, 4),
    op!(SW r12, 0(r9)),
    op!(ADDIU r9, r9, 4),
    Node::End,
    Node::JumpTo(register!(r31)),
];

/// The listing that copies words of the kernel's data. It comes back to r31. Each crate whose routines call it places one in its range.
pub fn copy() -> &'static [Node]
    ensures listing { result.now ≡ COPY_NODES }
    ensures well { IsTrue (is_well result.now) }
    ensures spaced { IsTrue (is_spaced result.now) }
    ensures serves { IfSome (tree_of result.now) (λ tree. CopiesWords tree) }
{
    &COPY_NODES
}

/// By two copies and three stores another thread runs. It does nothing.
pub fn switches()
    ensures { Switches }
{}
