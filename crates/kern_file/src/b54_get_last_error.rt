//! The last error is answered.
ghost use Rattle.std.specs.Prelude.{◌≡◌, IsTrue, IfSome, []};
ghost use Rattle.psx_flow.specs.Reading.{tree_of};
ghost use Rattle.psx_flow.specs.Well.{is_well};
ghost use Rattle.psx_flow.specs.Spaced.{is_spaced};
ghost use Rattle.abs_kernel.specs.declared.calls.CallId.TheVariants.{B54};
ghost use Rattle.abs_kernel.specs.Calls.{call};
ghost use Rattle.kern_stay.specs.Doors.{Serves, most_steps};
ghost use Rattle.kern_file.specs.declared.b54_get_last_error.TheConstants.{NODES};
ghost use Rattle.kern_file.specs.declared.places.TheConstants.{GET_LAST_ERROR};

use crate::places;
use kern_stay::places::LEAVE;
use psx_flow::{Node, op};

/// r2 is the error.
pub const NODES: [Node; 4] = [
    op!(LUI r8, places::DATA),
    op!(LW r2, r8, places::LAST_ERROR),
    op!(NOP),
    Node::Jump(LEAVE),
];

/// The listing of B54, GetLastError(), which answers the error of the last call on files that refused. The table's entry leads to it. It ends at LEAVE with that error in r2.
/// r8 is changed too.
pub fn get_last_error() -> &'static [Node]
    ensures listing { result.now ≡ NODES }
    ensures well { IsTrue (is_well result.now) }
    ensures spaced { IsTrue (is_spaced result.now) }
    ensures serves { IfSome (tree_of result.now) (λ tree. Serves [] most_steps (call B54) GET_LAST_ERROR tree) }
{
    &NODES
}
