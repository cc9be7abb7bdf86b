//! A context is taken up when no task is left.
ghost use Rattle.std.specs.Prelude.{◌≡◌, IsTrue, IfSome};
ghost use Rattle.psx_flow.specs.Reading.{tree_of};
ghost use Rattle.psx_flow.specs.Well.{is_well};
ghost use Rattle.psx_flow.specs.Spaced.{is_spaced};
ghost use Rattle.kern_stay.specs.Doors.{Makes, TakesUp, Nowhere, most_take_up_steps};
ghost use Rattle.kern_stay.specs.declared.places.TheConstants.{TAKE_UP};
ghost use Rattle.kern_entry.specs.FramesOwn.{frames_own};
ghost use Rattle.kern_entry.specs.declared.take_up.TheConstants.{TAKE_UP_NODES};

use crate::frames;
use crate::places::COPY_HALF;
use kern_stay::places::WAIT;
use psx_flow::{Node, Test, op, register};

/// Where a callback has named a thread and the last frame has gone, the running slot keeps the context of the work area, where it is used, and the thread's context is taken up in its stead.
/// r13 is that thread's number, r17 the address of the running thread's block, r14 the upper half of the data's addresses.
pub const TAKE_UP_NODES: [Node; 36] = [
    op!(LUI r14, frames::DATA),
    op!(LW r13, r14, frames::NEXT),
    op!(LW r12, r14, frames::COUNT),
    op!(ADDIU r19, r0, frames::USED),
    Node::If(Test::Same(register!(r13), register!(r0))),
    Node::Jump(WAIT),
    Node::End,
    Node::If(Test::Differ(register!(r12), register!(r0))),
    Node::Jump(WAIT),
    Node::End,
    op!(LW r12, r14, frames::RUNNING),
    op!(ADDIU r13, r13, 0xFFFF),
    op!(SLL r10, r12, 7),
    op!(SLL r11, r12, 6),
    op!(ADDU r10, r10, r11),
    op!(ADDU r10, r10, r14),
    op!(ADDIU r17, r10, frames::THREADS),
    op!(LW r18, 0(r17)),
    op!(SW r0, r14, frames::NEXT),
    Node::If(Test::Same(register!(r18), register!(r19))),
    op!(ADDIU r8, r14, frames::AREA_CONTEXT),
    op!(ADDIU r9, r17, frames::CONTEXT),
    Node::Call(COPY_HALF),
    Node::Call(COPY_HALF),
    Node::End,
    op!(SLL r10, r13, 7),
    op!(SLL r11, r13, 6),
    op!(ADDU r10, r10, r11),
    op!(ADDU r10, r10, r14),
    op!(ADDIU r15, r10, frames::THREADS),
    op!(ADDIU r8, r15, frames::CONTEXT),
    op!(ADDIU r9, r14, frames::AREA_CONTEXT),
    Node::Call(COPY_HALF),
    Node::Call(COPY_HALF),
    op!(SW r13, r14, frames::RUNNING),
    Node::Jump(WAIT),
];

/// The listing at TAKE_UP, where WORK's listing arrives when no task is left.
/// It ends at WAIT, with the context in the work area that is taken up. r8 to r19 and r31 are changed.
pub fn take_up() -> &'static [Node]
    ensures listing { result.now ≡ TAKE_UP_NODES }
    ensures well { IsTrue (is_well result.now) }
    ensures spaced { IsTrue (is_spaced result.now) }
    ensures makes { IfSome (tree_of result.now) (λ tree. Makes frames_own most_take_up_steps TakesUp Nowhere TAKE_UP tree) }
{
    &TAKE_UP_NODES
}
