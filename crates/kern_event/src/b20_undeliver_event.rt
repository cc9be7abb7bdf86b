//! What a delivery has marked is taken back.
ghost use Rattle.std.specs.Prelude.{◌≡◌, IsTrue, IfSome, []};
ghost use Rattle.psx_flow.specs.Reading.{tree_of};
ghost use Rattle.psx_flow.specs.Well.{is_well};
ghost use Rattle.psx_flow.specs.Spaced.{is_spaced};
ghost use Rattle.abs_kernel.specs.declared.calls.CallId.TheVariants.{B20};
ghost use Rattle.abs_kernel.specs.Calls.{call};
ghost use Rattle.kern_stay.specs.Doors.{Serves, most_steps};
ghost use Rattle.kern_event.specs.declared.b20_undeliver_event.TheConstants.{NODES};
ghost use Rattle.kern_event.specs.declared.places.TheConstants.{UNDELIVER_EVENT};

use crate::places;
use kern_stay::places::LEAVE;
use psx_flow::{Node, Test, op, register};

/// r4 is the class and r5 the spec. r13 is the number of an event, r9 how many there are, r15 its address, and r11 one of its fields.
/// r10 is the status of a ready event, r12 that of a busy one, and r8 the mode of one that a delivery marks.
pub const NODES: [Node; 29] = [
    op!(LUI r14, places::DATA),
    op!(LW r9, r14, places::COUNT),
    op!(OR r13, r0, r0),
    op!(ADDIU r15, r14, places::BLOCKS),
    op!(ADDIU r10, r0, places::READY),
    op!(ADDIU r12, r0, places::BUSY),
    op!(ADDIU r8, r0, places::MARKED),
    // The events before r13 are as they are to be.
    Node::While(Test::Differ(register!(r13), register!(r9))),
    op!(LW r11, 0(r15)),
    op!(ADDIU r13, r13, 1),
    Node::If(Test::Same(register!(r11), register!(r4))),
    op!(LW r11, 4(r15)),
    op!(NOP),
    Node::If(Test::Same(register!(r11), register!(r10))),
    op!(LW r11, 8(r15)),
    op!(NOP),
    Node::If(Test::Same(register!(r11), register!(r5))),
    op!(LW r11, 12(r15)),
    op!(NOP),
    Node::If(Test::Same(register!(r11), register!(r8))),
    op!(SW r12, 4(r15)),
    Node::End,
    Node::End,
    Node::End,
    Node::End,
    op!(ADDIU r15, r15, 0x1C),
    Node::End,
    op!(OR r2, r0, r0),
    Node::Jump(LEAVE),
];

/// The listing of B20, UnDeliverEvent(class, spec), which makes ready events of the class and spec busy, where a delivery marks them. The table's entry leads to it with the two in r4 and r5.
/// It ends at LEAVE with 0 in r2. r8 to r15 are changed too.
pub fn undeliver_event() -> &'static [Node]
    ensures listing { result.now ≡ NODES }
    ensures well { IsTrue (is_well result.now) }
    ensures spaced { IsTrue (is_spaced result.now) }
    ensures serves { IfSome (tree_of result.now) (λ tree. Serves [] most_steps (call B20) UNDELIVER_EVENT tree) }
{
    &NODES
}
