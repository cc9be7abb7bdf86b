//! The registers of a place in the program are written to a buffer.
ghost use Rattle.std.specs.Prelude.{◌≡◌, IsTrue, IfSome, []};
ghost use Rattle.psx_flow.specs.Reading.{tree_of};
ghost use Rattle.psx_flow.specs.Well.{is_well};
ghost use Rattle.psx_flow.specs.Spaced.{is_spaced};
ghost use Rattle.abs_kernel.specs.declared.calls.CallId.TheVariants.{A13};
ghost use Rattle.abs_kernel.specs.Calls.{call};
ghost use Rattle.kern_stay.specs.Doors.{Serves, most_steps};
ghost use Rattle.kern_mem.specs.declared.a13_setjmp.TheConstants.{NODES};
ghost use Rattle.kern_mem.specs.declared.places.TheConstants.{SETJMP};

use crate::places;
use crate::places::SAVED;
use kern_stay::places::{BAD_POINTER, LEAVE, WRITE_WORD};
use psx_flow::{Node, Test, op, register};

/// r4 is the buffer. r13 to r24 hold the caller's r31, r29, r30, r16 to r23 and r28. r8 is the address of the word that is written next, and r25 how many are to come.
pub const NODES: [Node; 38] = [
    op!(LUI r12, places::DATA),
    op!(LW r13, r12, SAVED + 4 * 31),
    op!(LW r14, r12, SAVED + 4 * 29),
    op!(LW r15, r12, SAVED + 4 * 30),
    op!(LW r16, r12, SAVED + 4 * 16),
    op!(LW r17, r12, SAVED + 4 * 17),
    op!(LW r18, r12, SAVED + 4 * 18),
    op!(LW r19, r12, SAVED + 4 * 19),
    op!(LW r20, r12, SAVED + 4 * 20),
    op!(LW r21, r12, SAVED + 4 * 21),
    op!(LW r22, r12, SAVED + 4 * 22),
    op!(LW r23, r12, SAVED + 4 * 23),
    op!(LW r24, r12, SAVED + 4 * 28),
    op!(OR r8, r0, r4),
    op!(ADDIU r25, r0, 12),
    // r13 is the word to write; the twelve move up, the first behind the last.
    Node::While(Test::Differ(register!(r25), register!(r0))),
    op!(OR r9, r0, r13),
    Node::Call(WRITE_WORD),
    Node::If(Test::Same(register!(r10), register!(r0))),
    Node::Jump(BAD_POINTER),
    Node::End,
    op!(OR r13, r0, r14),
    op!(OR r14, r0, r15),
    op!(OR r15, r0, r16),
    op!(OR r16, r0, r17),
    op!(OR r17, r0, r18),
    op!(OR r18, r0, r19),
    op!(OR r19, r0, r20),
    op!(OR r20, r0, r21),
    op!(OR r21, r0, r22),
    op!(OR r22, r0, r23),
    op!(OR r23, r0, r24),
    op!(OR r24, r0, r9),
    op!(ADDIU r8, r8, 4),
    op!(ADDIU r25, r25, 0xFFFF),
    Node::End,
    op!(OR r2, r0, r0),
    Node::Jump(LEAVE),
];

/// The listing of A13, setjmp(buf), which writes the caller's r31, r29, r30, r16 to r23 and r28 as 12 words from buf on. The table's entry leads to it with buf in r4.
/// It ends at LEAVE with 0 in r2; or at BAD_POINTER with the first address in r8 at which no word of user memory stands, and the words before it written.
/// r8 to r25 and r31 are changed too.
pub fn setjmp() -> &'static [Node]
    ensures listing { result.now ≡ NODES }
    ensures well { IsTrue (is_well result.now) }
    ensures spaced { IsTrue (is_spaced result.now) }
    ensures serves { IfSome (tree_of result.now) (λ tree. Serves [] most_steps (call A13) SETJMP tree) }
{
    &NODES
}
