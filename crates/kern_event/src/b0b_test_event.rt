//! A ready event is taken.
ghost use Rattle.std.specs.Prelude.{◌≡◌, IsTrue, IfSome, []};
ghost use Rattle.psx_flow.specs.Reading.{tree_of};
ghost use Rattle.psx_flow.specs.Well.{is_well};
ghost use Rattle.psx_flow.specs.Spaced.{is_spaced};
ghost use Rattle.abs_kernel.specs.declared.calls.CallId.TheVariants.{B0B};
ghost use Rattle.abs_kernel.specs.Calls.{call};
ghost use Rattle.kern_stay.specs.Doors.{Serves, most_steps};
ghost use Rattle.kern_event.specs.declared.b0b_test_event.TheConstants.{NODES};
ghost use Rattle.kern_event.specs.declared.places.TheConstants.{TEST_EVENT};

use crate::places;
use kern_stay::places::LEAVE;
use psx_flow::{Node, Test, op, register};

/// r4 is the handle. r13 is the event's number, r10 its address less that of the first event, r11 its status, r12 that of a ready event and r9 that of a busy one.
pub const NODES: [Node; 21] = [
    op!(LUI r8, places::HANDLES),
    op!(SUBU r13, r4, r8),
    op!(LUI r14, places::DATA),
    op!(LW r9, r14, places::COUNT),
    op!(SLL r10, r13, 5),
    op!(SLTU r8, r13, r9),
    Node::If(Test::Differ(register!(r8), register!(r0))),
    op!(SLL r11, r13, 2),
    op!(SUBU r10, r10, r11),
    op!(ADDU r10, r10, r14),
    op!(LW r11, r10, places::STATUSES),
    op!(ADDIU r12, r0, places::READY),
    Node::If(Test::Same(register!(r11), register!(r12))),
    op!(ADDIU r9, r0, places::BUSY),
    op!(SW r9, r10, places::STATUSES),
    op!(ADDIU r2, r0, 1),
    Node::Jump(LEAVE),
    Node::End,
    Node::End,
    op!(OR r2, r0, r0),
    Node::Jump(LEAVE),
];

/// The listing of B0B, TestEvent(h). The table's entry leads to it with h in r4.
/// It ends at LEAVE with 1 in r2 where the event was ready, which is busy then, else with 0. r8 to r14 are changed too.
pub fn test_event() -> &'static [Node]
    ensures listing { result.now ≡ NODES }
    ensures well { IsTrue (is_well result.now) }
    ensures spaced { IsTrue (is_spaced result.now) }
    ensures serves { IfSome (tree_of result.now) (λ tree. Serves [] most_steps (call B0B) TEST_EVENT tree) }
{
    &NODES
}
