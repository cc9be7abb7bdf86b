//! An event is opened.
ghost use Rattle.std.specs.Prelude.{◌≡◌, IsTrue, IfSome, []};
ghost use Rattle.psx_flow.specs.Reading.{tree_of};
ghost use Rattle.psx_flow.specs.Well.{is_well};
ghost use Rattle.psx_flow.specs.Spaced.{is_spaced};
ghost use Rattle.abs_kernel.specs.declared.calls.CallId.TheVariants.{B08};
ghost use Rattle.abs_kernel.specs.Calls.{call};
ghost use Rattle.kern_stay.specs.Doors.{Serves, most_steps};
ghost use Rattle.kern_event.specs.declared.b08_open_event.TheConstants.{NODES};
ghost use Rattle.kern_event.specs.declared.places.TheConstants.{OPEN_EVENT};

use crate::places;
use kern_stay::places::LEAVE;
use psx_flow::{Node, Test, op, register};

/// r13 is the number of a slot, r9 how many there are, r15 the slot's address, r11 its status, and r10 that of a disabled event.
pub const NODES: [Node; 23] = [
    op!(LUI r14, places::DATA),
    op!(LW r9, r14, places::COUNT),
    op!(OR r13, r0, r0),
    op!(ADDIU r15, r14, places::BLOCKS),
    op!(ADDIU r10, r0, places::DISABLED),
    op!(LUI r2, places::HANDLES),
    // The slots before r13 aren't free.
    Node::While(Test::Differ(register!(r13), register!(r9))),
    op!(LW r11, 4(r15)),
    op!(NOP),
    Node::If(Test::Same(register!(r11), register!(r0))),
    op!(SW r4, 0(r15)),
    op!(SW r10, 4(r15)),
    op!(SW r5, 8(r15)),
    op!(SW r6, 12(r15)),
    op!(SW r7, 16(r15)),
    op!(ADDU r2, r2, r13),
    Node::Jump(LEAVE),
    Node::End,
    op!(ADDIU r13, r13, 1),
    op!(ADDIU r15, r15, 0x1C),
    Node::End,
    op!(ADDIU r2, r0, 0xFFFF),
    Node::Jump(LEAVE),
];

/// The listing of B08, OpenEvent(class, spec, mode, function), which takes the lowest free slot for a disabled event. The table's entry leads to it with the four in r4 to r7.
/// It ends at LEAVE with the event's handle in r2, or FFFFFFFFh where no slot is free. r9 to r11 and r13 to r15 are changed too.
pub fn open_event() -> &'static [Node]
    ensures listing { result.now ≡ NODES }
    ensures well { IsTrue (is_well result.now) }
    ensures spaced { IsTrue (is_spaced result.now) }
    ensures serves { IfSome (tree_of result.now) (λ tree. Serves [] most_steps (call B08) OPEN_EVENT tree) }
{
    &NODES
}
