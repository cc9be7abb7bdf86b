//! A block of the heap is freed.
ghost use Rattle.std.specs.Prelude.{◌≡◌, IsTrue, IfSome};
ghost use Rattle.psx_flow.specs.Reading.{tree_of};
ghost use Rattle.psx_flow.specs.Well.{is_well};
ghost use Rattle.psx_flow.specs.Spaced.{is_spaced};
ghost use Rattle.abs_kernel.specs.Free as definition;
ghost use Rattle.kern_stay.specs.Doors.{Serves, most_heap_steps};
ghost use Rattle.kern_heap.specs.Own.{own};
ghost use Rattle.kern_heap.specs.declared.a34_free.TheConstants.{NODES};
ghost use Rattle.kern_heap.specs.declared.places.TheConstants.{FREE};

use crate::places::RELEASE;
use kern_stay::places::LEAVE;
use psx_flow::{Node, op};

/// r4 is the block's address.
pub const NODES: [Node; 3] = [Node::Call(RELEASE), op!(OR r2, r0, r0), Node::Jump(LEAVE)];

/// The listing of A34, free(p), which frees the used block at p. The table's entry leads to it with p in r4.
/// It ends at LEAVE with 0 in r2. r7 to r15 and r31 are changed too.
pub fn free() -> &'static [Node]
    ensures listing { result.now ≡ NODES }
    ensures well { IsTrue (is_well result.now) }
    ensures spaced { IsTrue (is_spaced result.now) }
    ensures serves { IfSome (tree_of result.now) (λ tree. Serves own most_heap_steps definition.free FREE tree) }
{
    &NODES
}
