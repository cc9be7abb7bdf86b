//! The heap is set.
ghost use Rattle.std.specs.Prelude.{◌≡◌, IsTrue, IfSome};
ghost use Rattle.psx_flow.specs.Reading.{tree_of};
ghost use Rattle.psx_flow.specs.Well.{is_well};
ghost use Rattle.psx_flow.specs.Spaced.{is_spaced};
ghost use Rattle.abs_kernel.specs.InitHeap as definition;
ghost use Rattle.kern_stay.specs.Doors.{Serves, most_heap_steps};
ghost use Rattle.kern_heap.specs.Own.{own};
ghost use Rattle.kern_heap.specs.declared.a39_init_heap.TheConstants.{NODES};
ghost use Rattle.kern_heap.specs.declared.places.TheConstants.{INIT_HEAP};

use crate::places;
use crate::places::ROOM;
use kern_stay::places::{BAD_POINTER, LEAVE};
use psx_flow::{Node, Test, op, register};

/// r4 is the address and r5 the number of bytes. r8 is the heap's base, and r6 its size. r9 is the entry of the first block that is left, and r12 the first spare entry.
pub const NODES: [Node; 40] = [
    op!(LUI r14, places::DATA),
    op!(ADDIU r8, r4, 7),
    op!(SRL r8, r8, 3),
    op!(SLL r8, r8, 3),
    op!(SUBU r10, r8, r4),
    op!(SLTU r11, r5, r10),
    op!(SUBU r6, r5, r10),
    op!(SRL r6, r6, 3),
    op!(SLL r6, r6, 3),
    Node::If(Test::Differ(register!(r11), register!(r0))),
    op!(OR r6, r0, r0),
    Node::End,
    Node::Call(ROOM),
    op!(SLTU r10, r9, r6),
    Node::If(Test::Differ(register!(r10), register!(r0))),
    op!(ADDU r8, r8, r9),
    Node::Jump(BAD_POINTER),
    Node::End,
    op!(LW r9, r14, places::FIRST),
    op!(LW r12, r14, places::SPARE),
    op!(OR r2, r0, r0),
    // The entries of the blocks before r9 are spare.
    Node::While(Test::Differ(register!(r9), register!(r0))),
    op!(LW r10, 0(r9)),
    op!(SW r12, 0(r9)),
    op!(SW r0, r9, places::SIZE),
    op!(SW r9, r14, places::SPARE),
    op!(OR r12, r0, r9),
    op!(OR r9, r0, r10),
    op!(SW r9, r14, places::FIRST),
    Node::End,
    op!(LW r10, 0(r12)),
    op!(SW r8, r14, places::BASE),
    Node::If(Test::Differ(register!(r6), register!(r0))),
    op!(SW r6, r12, places::SIZE),
    op!(SW r0, r12, places::USED),
    op!(SW r0, 0(r12)),
    op!(SW r12, r14, places::FIRST),
    op!(SW r10, r14, places::SPARE),
    Node::End,
    Node::Jump(LEAVE),
];

/// The listing of A39, InitHeap(p, n), which makes the n bytes from p on the heap, from the next multiple of 8 on, all of it one free block. The table's entry leads to it with p in r4 and n in r5.
/// It ends at LEAVE with 0 in r2; or at BAD_POINTER with the first of the bytes in r8 that isn't user memory, and the heap as it was.
/// r6, r8 to r14 and r31 are changed too.
pub fn init_heap() -> &'static [Node]
    ensures listing { result.now ≡ NODES }
    ensures well { IsTrue (is_well result.now) }
    ensures spaced { IsTrue (is_spaced result.now) }
    ensures serves { IfSome (tree_of result.now) (λ tree. Serves own most_heap_steps definition.init_heap INIT_HEAP tree) }
{
    &NODES
}
