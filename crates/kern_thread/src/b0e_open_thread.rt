//! A thread is opened.
ghost use Rattle.std.specs.Prelude.{◌≡◌, IsTrue, IfSome, []};
ghost use Rattle.psx_flow.specs.Reading.{tree_of};
ghost use Rattle.psx_flow.specs.Well.{is_well};
ghost use Rattle.psx_flow.specs.Spaced.{is_spaced};
ghost use Rattle.abs_kernel.specs.declared.calls.CallId.TheVariants.{B0E};
ghost use Rattle.abs_kernel.specs.Calls.{call};
ghost use Rattle.kern_stay.specs.Doors.{Serves, most_steps};
ghost use Rattle.kern_thread.specs.declared.b0e_open_thread.TheConstants.{NODES};
ghost use Rattle.kern_thread.specs.declared.places.TheConstants.{OPEN_THREAD};

use crate::places;
use kern_stay::places::LEAVE;
use psx_flow::{Node, Test, op, register};

/// r13 is the number of a slot, r9 how many there are, r12 the running thread's number, r15 the slot's address, r10 the status of a used one and r8 SR with interrupts on.
pub const NODES: [Node; 55] = [
    op!(LUI r14, places::DATA),
    op!(LW r9, r14, places::COUNT),
    op!(OR r13, r0, r0),
    op!(LW r12, r14, places::RUNNING),
    op!(ADDIU r15, r14, places::BLOCKS),
    op!(ADDIU r10, r0, places::USED),
    op!(LUI r2, places::HANDLES),
    Node::While(Test::Differ(register!(r13), register!(r9))),
    op!(LW r11, 0(r15)),
    op!(ADDIU r8, r0, 0x404),
    Node::If(Test::Differ(register!(r11), register!(r10))),
    Node::If(Test::Differ(register!(r13), register!(r12))),
    op!(SW r10, 0(r15)),
    op!(SW r0, 12(r15)),
    op!(SW r0, 16(r15)),
    op!(SW r0, 20(r15)),
    op!(SW r0, 24(r15)),
    op!(SW r0, 28(r15)),
    op!(SW r0, 32(r15)),
    op!(SW r0, 36(r15)),
    op!(SW r0, 40(r15)),
    op!(SW r0, 44(r15)),
    op!(SW r0, 48(r15)),
    op!(SW r0, 52(r15)),
    op!(SW r0, 56(r15)),
    op!(SW r0, 60(r15)),
    op!(SW r0, 64(r15)),
    op!(SW r0, 68(r15)),
    op!(SW r0, 72(r15)),
    op!(SW r0, 76(r15)),
    op!(SW r0, 80(r15)),
    op!(SW r0, 84(r15)),
    op!(SW r0, 88(r15)),
    op!(SW r0, 92(r15)),
    op!(SW r0, 96(r15)),
    op!(SW r0, 100(r15)),
    op!(SW r0, 104(r15)),
    op!(SW r0, 108(r15)),
    op!(SW r6, 120(r15)),
    op!(SW r5, 124(r15)),
    op!(SW r5, 128(r15)),
    op!(SW r0, 132(r15)),
    op!(SW r4, 136(r15)),
    op!(SW r0, 140(r15)),
    op!(SW r0, 144(r15)),
    op!(SW r8, 148(r15)),
    op!(ADDU r2, r2, r13),
    Node::Jump(LEAVE),
    Node::End,
    Node::End,
    op!(ADDIU r13, r13, 1),
    op!(ADDIU r15, r15, 0xC0),
    Node::End,
    op!(ADDIU r2, r0, 0xFFFF),
    Node::Jump(LEAVE),
];

/// The listing of B0E, OpenThread(pc, sp, gp), which takes the lowest free slot that isn't the running thread's. The table's entry leads to it with pc, sp and gp in r4 to r6.
/// It ends at LEAVE with the thread's handle in r2, or FFFFFFFFh. r8 to r15 are changed too.
pub fn open_thread() -> &'static [Node]
    ensures listing { result.now ≡ NODES }
    ensures well { IsTrue (is_well result.now) }
    ensures spaced { IsTrue (is_spaced result.now) }
    ensures serves { IfSome (tree_of result.now) (λ tree. Serves [] most_steps (call B0E) OPEN_THREAD tree) }
{
    &NODES
}
