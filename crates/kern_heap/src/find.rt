//! The used block at an address is found.
ghost use Rattle.std.specs.Prelude.{◌≡◌, IsTrue};
ghost use Rattle.psx_flow.specs.Well.{is_well};
ghost use Rattle.psx_flow.specs.Spaced.{is_spaced};
ghost use Rattle.kern_heap.specs.declared.find.TheConstants.{FIND_NODES};

use crate::places;
use psx_flow::{Node, Test, op, register};

/// r4 is the address. r9 is the entry of the block that comes, 0 behind the last one, r8 the word that names it, and r15 the block's address.
pub const FIND_NODES: [Node; 23] = [
    op!(LUI r14, places::DATA),
    op!(LW r9, r14, places::FIRST),
    op!(ADDIU r8, r14, places::FIRST),
    op!(LW r15, r14, places::BASE),
    op!(OR r11, r0, r0),
    // No block before r9 stands at the address.
    Node::While(Test::Differ(register!(r15), register!(r4))),
    Node::If(Test::Same(register!(r9), register!(r0))),
    Node::JumpTo(register!(r31)),
    Node::End,
    op!(LW r11, r9, places::SIZE),
    op!(OR r8, r0, r9),
    op!(LW r9, 0(r9)),
    op!(ADDU r15, r15, r11),
    Node::End,
    Node::If(Test::Differ(register!(r9), register!(r0))),
    op!(LW r12, r9, places::USED),
    op!(LW r11, r9, places::SIZE),
    op!(NOP),
    Node::If(Test::Same(register!(r12), register!(r0))),
    op!(OR r9, r0, r0),
    Node::End,
    Node::End,
    Node::JumpTo(register!(r31)),
];

/// The listing that finds the used block at the address in r4. It comes back to r31.
/// r9 is then its entry, r8 the address of the word that names this, and r11 its size; or r9 is 0 where no used block stands there. r12, r14 and r15 are changed too.
pub fn find() -> &'static [Node]
    ensures listing { result.now ≡ FIND_NODES }
    ensures well { IsTrue (is_well result.now) }
    ensures spaced { IsTrue (is_spaced result.now) }
{
    &FIND_NODES
}
