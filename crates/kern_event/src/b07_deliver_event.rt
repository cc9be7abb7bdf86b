//! An event is delivered.
ghost use Rattle.std.specs.Prelude.{◌≡◌, IsTrue, IfSome, []};
ghost use Rattle.psx_flow.specs.Reading.{tree_of};
ghost use Rattle.psx_flow.specs.Well.{is_well};
ghost use Rattle.psx_flow.specs.Spaced.{is_spaced};
ghost use Rattle.abs_kernel.specs.declared.calls.CallId.TheVariants.{B07};
ghost use Rattle.abs_kernel.specs.Calls.{call};
ghost use Rattle.kern_stay.specs.Doors.{Serves, most_steps};
ghost use Rattle.kern_event.specs.declared.b07_deliver_event.TheConstants.{NODES};
ghost use Rattle.kern_event.specs.declared.places.TheConstants.{DELIVER_EVENT};

use crate::places;
use kern_stay::places::WORK;
use psx_flow::{Node, op, register};

/// r4 is the class and r5 the spec. r14 is the upper half of the data's addresses.
pub const NODES: [Node; 13] = [
    op!(LUI r14, places::DATA),
    op!(LW r31, r14, places::CALLER),
    op!(SW r0, r14, places::ANSWER),
    op!(SW r31, r14, places::GOES_ON),
    op!(SW r4, r14, places::TASK_CLASS),
    op!(SW r5, r14, places::TASK_SPEC),
    op!(SW r0, r14, places::TASK_EVENT),
    op!(ADDIU r8, r0, places::SCAN),
    op!(SW r8, r14, places::TASK_KIND),
    op!(SW r0, r14, places::ELEMENT_COUNT),
    op!(SW r0, r14, places::LINE_COUNT),
    op!(OR r2, r0, r0),
    Node::Jump(WORK),
];

/// The listing of B07, DeliverEvent(class, spec), which leaves the delivery to WORK. The table's entry leads to it with the two in r4 and r5.
/// It ends at WORK, with the caller's context in the work area as it goes on behind its call, with 0 in r2, and with a scan from the first event on as its task. r31 is the caller's. r2, r8 and r14 are changed too.
pub fn deliver_event() -> &'static [Node]
    ensures listing { result.now ≡ NODES }
    ensures well { IsTrue (is_well result.now) }
    ensures spaced { IsTrue (is_spaced result.now) }
    ensures serves { IfSome (tree_of result.now) (λ tree. Serves [] most_steps (call B07) DELIVER_EVENT tree) }
{
    &NODES
}
