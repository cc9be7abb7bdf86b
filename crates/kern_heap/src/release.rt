//! The used block at an address is freed.
ghost use Rattle.std.specs.Prelude.{◌≡◌, IsTrue};
ghost use Rattle.psx_flow.specs.Well.{is_well};
ghost use Rattle.psx_flow.specs.Spaced.{is_spaced};
ghost use Rattle.kern_heap.specs.declared.release.TheConstants.{RELEASE_NODES};

use crate::places;
use crate::places::{FIND, JOIN};
use psx_flow::{Node, Test, op, register};

/// r4 is the address. r7 keeps r31. r9 is the block's entry, and r8 the word that names it, the entry of the block before it where there is one.
pub const RELEASE_NODES: [Node; 17] = [
    op!(OR r7, r0, r31),
    Node::Call(FIND),
    Node::If(Test::Same(register!(r9), register!(r0))),
    Node::JumpTo(register!(r7)),
    Node::End,
    op!(SW r0, r9, places::USED),
    Node::Call(JOIN),
    op!(LUI r10, places::DATA),
    op!(ADDIU r10, r10, places::FIRST),
    Node::If(Test::Differ(register!(r8), register!(r10))),
    op!(LW r12, r8, places::USED),
    op!(OR r9, r0, r8),
    Node::If(Test::Same(register!(r12), register!(r0))),
    Node::Call(JOIN),
    Node::End,
    Node::End,
    Node::JumpTo(register!(r7)),
];

/// The listing that frees the used block at the address in r4 and joins it with its free neighbours; where no used block stands there it changes nothing. It comes back to r31.
/// r7 to r15 and r31 are changed.
pub fn release() -> &'static [Node]
    ensures listing { result.now ≡ RELEASE_NODES }
    ensures well { IsTrue (is_well result.now) }
    ensures spaced { IsTrue (is_spaced result.now) }
{
    &RELEASE_NODES
}
