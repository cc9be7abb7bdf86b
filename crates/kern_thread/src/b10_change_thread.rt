//! Another thread is taken up.
ghost use Rattle.std.specs.Prelude.{◌≡◌, IsTrue, IfSome};
ghost use Rattle.psx_flow.specs.Reading.{tree_of};
ghost use Rattle.psx_flow.specs.Well.{is_well};
ghost use Rattle.psx_flow.specs.Spaced.{is_spaced};
ghost use Rattle.abs_kernel.specs.declared.calls.CallId.TheVariants.{B10};
ghost use Rattle.abs_kernel.specs.Calls.{call};
ghost use Rattle.kern_stay.specs.Doors.{Serves, most_steps};
ghost use Rattle.kern_thread.specs.Own.{own};
ghost use Rattle.kern_thread.specs.declared.b10_change_thread.TheConstants.{NODES};
ghost use Rattle.kern_thread.specs.declared.places.TheConstants.{CHANGE_THREAD};

use crate::places;
use crate::places::COPY_HALF;
use kern_stay::places::{BAD_THREAD, LEAVE, WAIT};
use psx_flow::{Node, Test, op, register};

/// r4 is the handle. r13 is its number, r15 its block's address, r12 the running thread's number, r17 its block's address, and r14 that of the context in the work area.
pub const NODES: [Node; 52] = [
    op!(LUI r8, places::HANDLES),
    op!(SUBU r13, r4, r8),
    op!(LUI r14, places::DATA),
    op!(LW r9, r14, places::COUNT),
    op!(SLL r10, r13, 7),
    op!(SLTU r8, r13, r9),
    Node::If(Test::Differ(register!(r8), register!(r0))),
    op!(SLL r11, r13, 6),
    op!(ADDU r10, r10, r11),
    op!(ADDU r10, r10, r14),
    op!(ADDIU r15, r10, places::BLOCKS),
    op!(LW r18, 0(r15)),
    op!(ADDIU r19, r0, places::USED),
    Node::If(Test::Same(register!(r18), register!(r19))),
    op!(LW r12, r14, places::RUNNING),
    op!(ADDIU r2, r0, 1),
    op!(LW r9, r14, places::FRAMES),
    op!(ADDIU r11, r13, 1),
    // In a callback the number is kept for later, and none where it is the running thread's.
    Node::If(Test::Differ(register!(r9), register!(r0))),
    Node::If(Test::Same(register!(r12), register!(r13))),
    op!(OR r11, r0, r0),
    Node::End,
    op!(SW r11, r14, places::NEXT),
    Node::Jump(LEAVE),
    Node::End,
    op!(LW r16, r14, places::AREA_R31),
    op!(SLL r10, r12, 7),
    op!(SLL r11, r12, 6),
    op!(ADDU r10, r10, r11),
    op!(ADDU r10, r10, r14),
    op!(ADDIU r17, r10, places::BLOCKS),
    op!(LW r18, 0(r17)),
    op!(SW r2, r14, places::AREA_R2),
    op!(SW r16, r14, places::AREA_PC),
    op!(ADDIU r14, r14, places::AREA_CONTEXT),
    // The running slot keeps the caller, where it is used.
    Node::If(Test::Same(register!(r18), register!(r19))),
    op!(OR r8, r0, r14),
    op!(ADDIU r9, r17, 0xC),
    Node::Call(COPY_HALF),
    Node::Call(COPY_HALF),
    Node::End,
    // The other slot's context becomes that of the work area.
    op!(ADDIU r8, r15, 0xC),
    op!(OR r9, r0, r14),
    Node::Call(COPY_HALF),
    Node::Call(COPY_HALF),
    op!(LUI r14, places::DATA),
    op!(SW r13, r14, places::RUNNING),
    Node::Jump(WAIT),
    Node::End,
    Node::End,
    op!(OR r8, r0, r4),
    Node::Jump(BAD_THREAD),
];

/// The listing of B10, ChangeThread(h). The table's entry leads to it with h in r4.
/// Without a frame it ends at WAIT, with the other thread's context in the work area, and the caller's in its slot with 1 in r2; with a frame at LEAVE with 1 in r2.
/// Where h names no used slot it ends at BAD_THREAD with the handle in r8. r8 to r19 are changed too.
pub fn change_thread() -> &'static [Node]
    ensures listing { result.now ≡ NODES }
    ensures well { IsTrue (is_well result.now) }
    ensures spaced { IsTrue (is_spaced result.now) }
    ensures serves { IfSome (tree_of result.now) (λ tree. Serves own most_steps (call B10) CHANGE_THREAD tree) }
{
    &NODES
}
