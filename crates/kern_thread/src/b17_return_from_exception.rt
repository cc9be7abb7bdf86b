//! The context that the innermost frame keeps is taken up, and its tasks are dropped.
ghost use Rattle.std.specs.Prelude.{◌≡◌, IsTrue, IfSome};
ghost use Rattle.psx_flow.specs.Reading.{tree_of};
ghost use Rattle.psx_flow.specs.Well.{is_well};
ghost use Rattle.psx_flow.specs.Spaced.{is_spaced};
ghost use Rattle.abs_kernel.specs.declared.calls.CallId.TheVariants.{B17};
ghost use Rattle.abs_kernel.specs.Calls.{call};
ghost use Rattle.kern_stay.specs.Doors.{Serves, most_steps};
ghost use Rattle.kern_thread.specs.Own.{own};
ghost use Rattle.kern_thread.specs.declared.b17_return_from_exception.TheConstants.{NODES};
ghost use Rattle.kern_thread.specs.declared.places.TheConstants.{RETURN_FROM_EXCEPTION};

use crate::places;
use crate::places::COPY_HALF;
use kern_stay::places::{BAD_RETURN, WORK};
use psx_flow::{Node, Test, op, register};

/// r12 is the frame's number, r10 its address. The work area has its context and no task then.
pub const NODES: [Node; 21] = [
    op!(LUI r14, places::DATA),
    op!(LW r12, r14, places::FRAMES),
    op!(NOP),
    Node::If(Test::Same(register!(r12), register!(r0))),
    Node::Jump(BAD_RETURN),
    Node::End,
    op!(ADDIU r12, r12, 0xFFFF),
    op!(SLL r10, r12, 8),
    op!(SLL r11, r12, 7),
    op!(ADDU r10, r10, r11),
    op!(ADDU r10, r10, r14),
    op!(ADDIU r10, r10, places::FRAME_BLOCKS),
    op!(SW r12, r14, places::FRAMES),
    op!(ADDIU r8, r10, places::CONTEXT),
    op!(ADDIU r9, r14, places::AREA_CONTEXT),
    Node::Call(COPY_HALF),
    Node::Call(COPY_HALF),
    // KIND_NONE is 0.
    op!(SW r0, r14, places::AREA_KIND),
    op!(SW r0, r14, places::AREA_ELEMENT_COUNT),
    op!(SW r0, r14, places::AREA_LINE_COUNT),
    Node::Jump(WORK),
];

/// The listing of B17, ReturnFromException(). The table's entry leads to it.
/// It ends at WORK, with the frame's context in the work area and no task; or at BAD_RETURN where no frame is there.
/// r8 to r12, r14 and r31 are changed.
pub fn return_from_exception() -> &'static [Node]
    ensures listing { result.now ≡ NODES }
    ensures well { IsTrue (is_well result.now) }
    ensures spaced { IsTrue (is_spaced result.now) }
    ensures serves { IfSome (tree_of result.now) (λ tree. Serves own most_steps (call B17) RETURN_FROM_EXCEPTION tree) }
{
    &NODES
}
