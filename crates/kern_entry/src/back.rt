//! A function that the kernel called returns by the gate E0h: the tasks of the innermost frame go on.
ghost use Rattle.std.specs.Prelude.{◌≡◌, IsTrue, IfSome};
ghost use Rattle.psx_flow.specs.Reading.{tree_of};
ghost use Rattle.psx_flow.specs.Well.{is_well};
ghost use Rattle.psx_flow.specs.Spaced.{is_spaced};
ghost use Rattle.abs_kernel.specs.Returning.{comes_back};
ghost use Rattle.kern_stay.specs.Doors.{Serves, most_back_steps};
ghost use Rattle.kern_entry.specs.FramesOwn.{frames_own};
ghost use Rattle.kern_entry.specs.declared.places.TheConstants.{BACK};
ghost use Rattle.kern_entry.specs.declared.back.TheConstants.{BACK_NODES};

use crate::places::{COPY, COPY_HALF};
use crate::{area, frames};
use kern_stay::places::{BAD_RETURN, WORK};
use psx_flow::{Node, Test, op, register};

/// r13 is the frame's address. The frame's context and tasks are copied to the work area, r2 is the function's answer, and r31 what a stop names.
/// Three runs of COPY_HALF, each 17 words behind the last one, copy the context and what stands before the elements.
pub const BACK_NODES: [Node; 30] = [
    op!(LUI r14, frames::DATA),
    op!(LW r12, r14, frames::COUNT),
    op!(LW r2, r14, area::REGISTERS + 4 * 2),
    op!(LW r16, r14, area::REGISTERS + 4 * 31),
    op!(NOP),
    Node::If(Test::Same(register!(r12), register!(r0))),
    Node::Jump(BAD_RETURN),
    Node::End,
    op!(ADDIU r12, r12, 0xFFFF),
    op!(SLL r10, r12, 8),
    op!(SLL r11, r12, 7),
    op!(ADDU r10, r10, r11),
    op!(ADDU r10, r10, r14),
    op!(ADDIU r13, r10, frames::FRAMES),
    op!(SW r12, r14, frames::COUNT),
    op!(ADDIU r8, r13, frames::CONTEXT),
    op!(ADDIU r9, r14, frames::AREA_CONTEXT),
    Node::Call(COPY_HALF),
    Node::Call(COPY_HALF),
    Node::Call(COPY_HALF),
    op!(LW r10, r14, frames::AREA_ELEMENT_COUNT),
    op!(ADDIU r8, r13, frames::ELEMENTS),
    Node::If(Test::Differ(register!(r10), register!(r0))),
    op!(SLL r10, r10, 2),
    op!(ADDU r10, r10, r8),
    op!(ADDIU r9, r14, frames::AREA_ELEMENTS),
    Node::Call(COPY),
    Node::End,
    op!(OR r31, r0, r16),
    Node::Jump(WORK),
];

/// The listing at BACK, where a function arrives that returns by the gate E0h.
/// It ends at WORK, with the frame's context and tasks in the work area, the function's answer in r2 and its r31 in r31; or at BAD_RETURN where no frame is there. r8 to r14 and r16 are changed.
pub fn back() -> &'static [Node]
    ensures listing { result.now ≡ BACK_NODES }
    ensures well { IsTrue (is_well result.now) }
    ensures spaced { IsTrue (is_spaced result.now) }
    ensures serves { IfSome (tree_of result.now) (λ tree. Serves frames_own most_back_steps comes_back BACK tree) }
{
    &BACK_NODES
}
