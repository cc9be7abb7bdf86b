//! A free block and the one behind it become one.
ghost use Rattle.std.specs.Prelude.{◌≡◌, IsTrue};
ghost use Rattle.psx_flow.specs.Well.{is_well};
ghost use Rattle.psx_flow.specs.Spaced.{is_spaced};
ghost use Rattle.kern_heap.specs.declared.join.TheConstants.{JOIN_NODES};

use crate::places;
use psx_flow::{Node, Test, op, register};

/// r9 is the entry of a free block. r10 is the entry of the one behind it, and r13 the size of this.
pub const JOIN_NODES: [Node; 20] = [
    op!(LUI r14, places::DATA),
    op!(LW r10, 0(r9)),
    op!(NOP),
    Node::If(Test::Differ(register!(r10), register!(r0))),
    op!(LW r12, r10, places::USED),
    op!(LW r13, r10, places::SIZE),
    op!(LW r11, r9, places::SIZE),
    op!(NOP),
    Node::If(Test::Same(register!(r12), register!(r0))),
    op!(LW r12, 0(r10)),
    op!(LW r15, r14, places::SPARE),
    op!(ADDU r11, r11, r13),
    op!(SW r11, r9, places::SIZE),
    op!(SW r12, 0(r9)),
    op!(SW r15, 0(r10)),
    op!(SW r0, r10, places::SIZE),
    op!(SW r10, r14, places::SPARE),
    Node::End,
    Node::End,
    Node::JumpTo(register!(r31)),
];

/// The listing that joins the free block whose entry is in r9 with the one behind it, where this is free. It comes back to r31. r10 to r15 are changed.
pub fn join() -> &'static [Node]
    ensures listing { result.now ≡ JOIN_NODES }
    ensures well { IsTrue (is_well result.now) }
    ensures spaced { IsTrue (is_spaced result.now) }
{
    &JOIN_NODES
}
