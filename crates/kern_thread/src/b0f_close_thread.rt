//! A thread is closed.
ghost use Rattle.std.specs.Prelude.{◌≡◌, IsTrue, IfSome, []};
ghost use Rattle.psx_flow.specs.Reading.{tree_of};
ghost use Rattle.psx_flow.specs.Well.{is_well};
ghost use Rattle.psx_flow.specs.Spaced.{is_spaced};
ghost use Rattle.abs_kernel.specs.declared.calls.CallId.TheVariants.{B0F};
ghost use Rattle.abs_kernel.specs.Calls.{call};
ghost use Rattle.kern_stay.specs.Doors.{Serves, most_steps};
ghost use Rattle.kern_thread.specs.declared.b0f_close_thread.TheConstants.{NODES};
ghost use Rattle.kern_thread.specs.declared.places.TheConstants.{CLOSE_THREAD};

use crate::places;
use kern_stay::places::{BAD_THREAD, LEAVE};
use psx_flow::{Node, Test, op, register};

/// r4 is the handle, r13 its number. The thread to take up later is forgotten first, where it is this one.
pub const NODES: [Node; 22] = [
    op!(LUI r8, places::HANDLES),
    op!(SUBU r13, r4, r8),
    op!(LUI r14, places::DATA),
    op!(LW r9, r14, places::COUNT),
    op!(SLL r10, r13, 7),
    op!(SLTU r8, r13, r9),
    Node::If(Test::Differ(register!(r8), register!(r0))),
    op!(SLL r11, r13, 6),
    op!(ADDU r10, r10, r11),
    op!(ADDU r10, r10, r14),
    op!(LW r12, r14, places::NEXT),
    op!(ADDIU r8, r0, places::FREE),
    op!(ADDIU r9, r13, 1),
    Node::If(Test::Same(register!(r12), register!(r9))),
    op!(SW r0, r14, places::NEXT),
    Node::End,
    op!(SW r8, r10, places::BLOCKS),
    op!(ADDIU r2, r0, 1),
    Node::Jump(LEAVE),
    Node::End,
    op!(OR r8, r0, r4),
    Node::Jump(BAD_THREAD),
];

/// The listing of B0F, CloseThread(h), which frees the slot of the handle. The table's entry leads to it with h in r4.
/// It ends at LEAVE with 1 in r2, or at BAD_THREAD with the handle in r8.
/// r8 to r14 are changed too.
pub fn close_thread() -> &'static [Node]
    ensures listing { result.now ≡ NODES }
    ensures well { IsTrue (is_well result.now) }
    ensures spaced { IsTrue (is_spaced result.now) }
    ensures serves { IfSome (tree_of result.now) (λ tree. Serves [] most_steps (call B0F) CLOSE_THREAD tree) }
{
    &NODES
}
