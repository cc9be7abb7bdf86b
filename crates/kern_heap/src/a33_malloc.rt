//! Bytes of the heap are given.
ghost use Rattle.std.specs.Prelude.{◌≡◌, IsTrue, IfSome};
ghost use Rattle.psx_flow.specs.Reading.{tree_of};
ghost use Rattle.psx_flow.specs.Well.{is_well};
ghost use Rattle.psx_flow.specs.Spaced.{is_spaced};
ghost use Rattle.abs_kernel.specs.Malloc as definition;
ghost use Rattle.kern_stay.specs.Doors.{Serves, most_heap_steps};
ghost use Rattle.kern_heap.specs.Own.{own};
ghost use Rattle.kern_heap.specs.declared.a33_malloc.TheConstants.{NODES};
ghost use Rattle.kern_heap.specs.declared.places.TheConstants.{MALLOC};

use crate::places::ALLOT;
use kern_stay::places::LEAVE;
use psx_flow::{Node, op};

/// r4 is the number of bytes.
pub const NODES: [Node; 3] = [op!(OR r5, r0, r4), Node::Call(ALLOT), Node::Jump(LEAVE)];

/// The listing of A33, malloc(n), which gives n bytes of the heap. The table's entry leads to it with n in r4.
/// It ends at LEAVE with the block's address in r2, or with 0 where the heap gives none. r5, r8 to r15 and r31 are changed too.
pub fn malloc() -> &'static [Node]
    ensures listing { result.now ≡ NODES }
    ensures well { IsTrue (is_well result.now) }
    ensures spaced { IsTrue (is_spaced result.now) }
    ensures serves { IfSome (tree_of result.now) (λ tree. Serves own most_heap_steps definition.malloc MALLOC tree) }
{
    &NODES
}
