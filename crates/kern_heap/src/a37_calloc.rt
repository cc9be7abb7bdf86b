//! Bytes of the heap are given and cleared.
ghost use Rattle.std.specs.Prelude.{◌≡◌, IsTrue, IfSome};
ghost use Rattle.psx_flow.specs.Reading.{tree_of};
ghost use Rattle.psx_flow.specs.Well.{is_well};
ghost use Rattle.psx_flow.specs.Spaced.{is_spaced};
ghost use Rattle.abs_kernel.specs.Calloc as definition;
ghost use Rattle.kern_stay.specs.Doors.{Serves, most_heap_steps};
ghost use Rattle.kern_heap.specs.Own.{own};
ghost use Rattle.kern_heap.specs.declared.a37_calloc.TheConstants.{NODES};
ghost use Rattle.kern_heap.specs.declared.places.TheConstants.{CALLOC};

use crate::places::ALLOT;
use kern_stay::places::LEAVE;
use psx_flow::{Node, Test, op, register};

/// r4 and r5 are the numbers whose product is asked for. r5 becomes the product, r8 is the address of the byte that comes, and r11 where the bytes end.
pub const NODES: [Node; 18] = [
    op!(MULTU r4, r5),
    op!(MFHI r10),
    op!(MFLO r5),
    op!(OR r2, r0, r0),
    Node::If(Test::Differ(register!(r10), register!(r0))),
    Node::Jump(LEAVE),
    Node::End,
    Node::Call(ALLOT),
    Node::If(Test::Same(register!(r2), register!(r0))),
    Node::Jump(LEAVE),
    Node::End,
    op!(OR r8, r0, r2),
    op!(ADDU r11, r8, r5),
    // The bytes of the block before r8 are 0.
    Node::While(Test::Differ(register!(r8), register!(r11))),
    op!(SB r0, 0(r8)),
    op!(ADDIU r8, r8, 1),
    Node::End,
    Node::Jump(LEAVE),
];

/// The listing of A37, calloc(a, b), which gives a * b bytes of the heap, all 0. The table's entry leads to it with a in r4 and b in r5.
/// It ends at LEAVE with the block's address in r2, or with 0 where the product doesn't fit a word or the heap gives none. r5, r8 to r15 and r31 are changed too.
pub fn calloc() -> &'static [Node]
    ensures listing { result.now ≡ NODES }
    ensures well { IsTrue (is_well result.now) }
    ensures spaced { IsTrue (is_spaced result.now) }
    ensures serves { IfSome (tree_of result.now) (λ tree. Serves own most_heap_steps definition.calloc CALLOC tree) }
{
    &NODES
}
