//! A byte of the console is waited for.
ghost use Rattle.std.specs.Prelude.{◌≡◌, IsTrue, IfSome, []};
ghost use Rattle.psx_flow.specs.Reading.{tree_of};
ghost use Rattle.psx_flow.specs.Well.{is_well};
ghost use Rattle.psx_flow.specs.Spaced.{is_spaced};
ghost use Rattle.abs_kernel.specs.declared.calls.CallId.TheVariants.{A3B};
ghost use Rattle.abs_kernel.specs.Calls.{call};
ghost use Rattle.kern_stay.specs.Doors.{Serves, most_steps};
ghost use Rattle.kern_file.specs.declared.a3b_getchar.TheConstants.{NODES};
ghost use Rattle.kern_file.specs.declared.places.TheConstants.{GETCHAR};

use crate::places;
use kern_stay::places::{LEAVE, WAIT};
use psx_flow::{Node, Test, op, register};

/// r26 is for the console's ports, r8 the status.
pub const NODES: [Node; 11] = [
    op!(LUI r26, places::PORTS),
    op!(LW r8, r26, places::PORT_STATUS),
    op!(NOP),
    Node::If(Test::Same(register!(r8), register!(r0))),
    Node::Jump(WAIT),
    Node::End,
    op!(LW r2, r26, places::PORT_CONSOLE),
    op!(NOP),
    op!(SLL r2, r2, 24),
    op!(SRL r2, r2, 24),
    Node::Jump(LEAVE),
];

/// The listing of A3B and B3C, getchar(), which takes a byte of the console. The entries of both tables lead to it.
/// It ends at LEAVE with the byte in r2; or at WAIT, where none is due.
/// r8 and r26 are changed too.
pub fn getchar() -> &'static [Node]
    ensures listing { result.now ≡ NODES }
    ensures well { IsTrue (is_well result.now) }
    ensures spaced { IsTrue (is_spaced result.now) }
    ensures serves { IfSome (tree_of result.now) (λ tree. Serves [] most_steps (call A3B) GETCHAR tree) }
{
    &NODES
}
