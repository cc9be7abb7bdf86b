//! Bytes of the first free block that has so many are given.
ghost use Rattle.std.specs.Prelude.{◌≡◌, IsTrue};
ghost use Rattle.psx_flow.specs.Well.{is_well};
ghost use Rattle.psx_flow.specs.Spaced.{is_spaced};
ghost use Rattle.kern_heap.specs.declared.allot.TheConstants.{ALLOT_NODES};

use crate::places;
use psx_flow::{Node, Test, op, register};

/// r5 is how many bytes are asked for, and r10 the same rounded up. r9 is the entry of the block that comes, 0 behind the last one, r2 its address, r11 its size and r12 its use. r8 is a spare entry.
pub const ALLOT_NODES: [Node; 46] = [
    op!(LUI r14, places::DATA),
    op!(ADDIU r10, r5, 7),
    op!(SRL r10, r10, 3),
    op!(SLL r10, r10, 3),
    op!(OR r2, r0, r0),
    // A size of 0, and one that can't be rounded up in a word.
    Node::If(Test::Same(register!(r10), register!(r0))),
    Node::JumpTo(register!(r31)),
    Node::End,
    op!(LW r9, r14, places::FIRST),
    op!(LW r2, r14, places::BASE),
    op!(NOP),
    // No block before r9 is free and large enough.
    Node::While(Test::Differ(register!(r9), register!(r0))),
    op!(LW r11, r9, places::SIZE),
    op!(LW r12, r9, places::USED),
    op!(SLTU r13, r11, r10),
    Node::If(Test::Same(register!(r12), register!(r0))),
    Node::If(Test::Same(register!(r13), register!(r0))),
    Node::If(Test::Differ(register!(r11), register!(r10))),
    op!(LW r8, r14, places::SPARE),
    op!(SUBU r11, r11, r10),
    Node::If(Test::Same(register!(r8), register!(r0))),
    op!(OR r2, r0, r0),
    Node::JumpTo(register!(r31)),
    Node::End,
    op!(LW r12, 0(r8)),
    op!(LW r15, 0(r9)),
    op!(ADDIU r13, r0, 1),
    op!(SW r10, r9, places::SIZE),
    op!(SW r13, r9, places::USED),
    op!(SW r12, r14, places::SPARE),
    op!(SW r15, 0(r8)),
    op!(SW r11, r8, places::SIZE),
    op!(SW r0, r8, places::USED),
    op!(SW r8, 0(r9)),
    Node::JumpTo(register!(r31)),
    Node::End,
    op!(ADDIU r13, r0, 1),
    op!(SW r13, r9, places::USED),
    Node::JumpTo(register!(r31)),
    Node::End,
    Node::End,
    op!(LW r9, 0(r9)),
    op!(ADDU r2, r2, r11),
    Node::End,
    op!(OR r2, r0, r0),
    Node::JumpTo(register!(r31)),
];

/// The listing that gives the r5 bytes of the first free block that has as many, rounded up to a multiple of 8. A larger block is split. It comes back to r31.
/// r2 is then the block's address, or 0 where nothing is given: no block is large enough, no entry is spare for a split, or r5 is 0 or above FFFFFFF8h. r8 to r15 are changed too.
pub fn allot() -> &'static [Node]
    ensures listing { result.now ≡ ALLOT_NODES }
    ensures well { IsTrue (is_well result.now) }
    ensures spaced { IsTrue (is_spaced result.now) }
{
    &ALLOT_NODES
}
