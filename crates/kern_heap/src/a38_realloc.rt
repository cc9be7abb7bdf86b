//! A block of the heap gets another size.
ghost use Rattle.std.specs.Prelude.{◌≡◌, IsTrue, IfSome};
ghost use Rattle.psx_flow.specs.Reading.{tree_of};
ghost use Rattle.psx_flow.specs.Well.{is_well};
ghost use Rattle.psx_flow.specs.Spaced.{is_spaced};
ghost use Rattle.abs_kernel.specs.Realloc as definition;
ghost use Rattle.kern_stay.specs.Doors.{Serves, most_heap_steps};
ghost use Rattle.kern_heap.specs.Own.{own};
ghost use Rattle.kern_heap.specs.declared.a38_realloc.TheConstants.{NODES};
ghost use Rattle.kern_heap.specs.declared.places.TheConstants.{REALLOC};

use crate::places::{ALLOT, FIND, RELEASE};
use kern_stay::places::LEAVE;
use psx_flow::{Node, Test, op, register};

/// r4 is the old block's address and r5 the number of bytes. r2 is the new block's address. r6 is first the old size and then how many bytes are copied.
/// r8 is the address of the byte that is read next, r11 where these end, and r9 that of the byte that is written next.
pub const NODES: [Node; 33] = [
    op!(OR r2, r0, r0),
    Node::If(Test::Same(register!(r4), register!(r0))),
    Node::Call(ALLOT),
    Node::Jump(LEAVE),
    Node::End,
    Node::If(Test::Same(register!(r5), register!(r0))),
    Node::Call(RELEASE),
    Node::Jump(LEAVE),
    Node::End,
    Node::Call(FIND),
    Node::If(Test::Same(register!(r9), register!(r0))),
    Node::Jump(LEAVE),
    Node::End,
    op!(OR r6, r0, r11),
    Node::Call(ALLOT),
    Node::If(Test::Same(register!(r2), register!(r0))),
    Node::Jump(LEAVE),
    Node::End,
    op!(SLTU r10, r5, r6),
    Node::If(Test::Differ(register!(r10), register!(r0))),
    op!(OR r6, r0, r5),
    Node::End,
    op!(OR r8, r0, r4),
    op!(ADDU r11, r8, r6),
    op!(OR r9, r0, r2),
    // The bytes of the old block before r8 are copied to those of the new one before r9.
    Node::While(Test::Differ(register!(r8), register!(r11))),
    op!(LBU r12, 0(r8)),
    op!(ADDIU r8, r8, 1),
    op!(SB r12, 0(r9)),
    op!(ADDIU r9, r9, 1),
    Node::End,
    Node::Call(RELEASE),
    Node::Jump(LEAVE),
];

/// The listing of A38, realloc(p, n), which gives n bytes of the heap with what the used block at p has, and frees this. The table's entry leads to it with p in r4 and n in r5.
/// It ends at LEAVE with the new block's address in r2, or with 0 where the heap gives none, where no used block stands at p, or where n is 0 and p is freed. Where p is 0 it ends as malloc's.
/// r6 to r15 and r31 are changed too.
pub fn realloc() -> &'static [Node]
    ensures listing { result.now ≡ NODES }
    ensures well { IsTrue (is_well result.now) }
    ensures spaced { IsTrue (is_spaced result.now) }
    ensures serves { IfSome (tree_of result.now) (λ tree. Serves own most_heap_steps definition.realloc REALLOC tree) }
{
    &NODES
}
