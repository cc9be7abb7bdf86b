//! A counter begins at 0 again.
ghost use Rattle.std.specs.Prelude.{◌≡◌, IsTrue, IfSome, []};
ghost use Rattle.psx_flow.specs.Reading.{tree_of};
ghost use Rattle.psx_flow.specs.Well.{is_well};
ghost use Rattle.psx_flow.specs.Spaced.{is_spaced};
ghost use Rattle.abs_kernel.specs.declared.calls.CallId.TheVariants.{B06};
ghost use Rattle.abs_kernel.specs.Calls.{call};
ghost use Rattle.kern_stay.specs.Doors.{Serves, most_steps};
ghost use Rattle.kern_timer.specs.declared.b06_restart_timer.TheConstants.{NODES};
ghost use Rattle.kern_timer.specs.declared.places.TheConstants.{RESTART_TIMER};

use crate::places;
use kern_stay::places::LEAVE;
use psx_flow::{Node, Test, op, register};

/// r4 is the counter. r8 is for its ports.
pub const NODES: [Node; 11] = [
    op!(SLTIU r8, r4, places::COUNTER_COUNT),
    Node::If(Test::Differ(register!(r8), register!(r0))),
    op!(SLL r8, r4, 4),
    op!(LUI r9, places::PORTS),
    op!(ADDU r8, r8, r9),
    op!(SW r0, r8, places::VALUES),
    op!(ADDIU r2, r0, 1),
    Node::Jump(LEAVE),
    Node::End,
    op!(OR r2, r0, r0),
    Node::Jump(LEAVE),
];

/// The listing of B06, restart_timer(t), which writes 0 to counter t's value. The table's entry leads to it with t in r4.
/// It ends at LEAVE with 1 in r2, or with 0 where t is above 2, and no port is accessed. r8 and r9 are changed too.
pub fn restart_timer() -> &'static [Node]
    ensures listing { result.now ≡ NODES }
    ensures well { IsTrue (is_well result.now) }
    ensures spaced { IsTrue (is_spaced result.now) }
    ensures serves { IfSome (tree_of result.now) (λ tree. Serves [] most_steps (call B06) RESTART_TIMER tree) }
{
    &NODES
}
