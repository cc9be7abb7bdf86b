//! Nothing is done.
ghost use Rattle.std.specs.Prelude.{◌≡◌, IsTrue, IfSome, []};
ghost use Rattle.psx_flow.specs.Reading.{tree_of};
ghost use Rattle.psx_flow.specs.Well.{is_well};
ghost use Rattle.psx_flow.specs.Spaced.{is_spaced};
ghost use Rattle.abs_kernel.specs.declared.calls.CallId.TheVariants.{A44};
ghost use Rattle.abs_kernel.specs.Calls.{call};
ghost use Rattle.kern_stay.specs.Doors.{Serves, most_steps};
ghost use Rattle.kern_mem.specs.declared.a44_flush_cache.TheConstants.{NODES};
ghost use Rattle.kern_mem.specs.declared.places.TheConstants.{FLUSH_CACHE};

use kern_stay::places::LEAVE;
use psx_flow::{Node, op};

/// There is no cache.
pub const NODES: [Node; 2] = [op!(OR r2, r0, r0), Node::Jump(LEAVE)];

/// The listing of A44, FlushCache(). The table's entry leads to it. It ends at LEAVE with 0 in r2, and changes no other register.
pub fn flush_cache() -> &'static [Node]
    ensures listing { result.now ≡ NODES }
    ensures well { IsTrue (is_well result.now) }
    ensures spaced { IsTrue (is_spaced result.now) }
    ensures serves { IfSome (tree_of result.now) (λ tree. Serves [] most_steps (call A44) FLUSH_CACHE tree) }
{
    &NODES
}
