//! The registers of a buffer become the caller's.
ghost use Rattle.std.specs.Prelude.{◌≡◌, IsTrue, IfSome, []};
ghost use Rattle.psx_flow.specs.Reading.{tree_of};
ghost use Rattle.psx_flow.specs.Well.{is_well};
ghost use Rattle.psx_flow.specs.Spaced.{is_spaced};
ghost use Rattle.abs_kernel.specs.declared.calls.CallId.TheVariants.{A14};
ghost use Rattle.abs_kernel.specs.Calls.{call};
ghost use Rattle.kern_stay.specs.Doors.{Serves, most_steps};
ghost use Rattle.kern_mem.specs.declared.a14_longjmp.TheConstants.{NODES};
ghost use Rattle.kern_mem.specs.declared.places.TheConstants.{LONGJMP};

use crate::places;
use crate::places::SAVED;
use kern_stay::places::{BAD_POINTER, LEAVE, READ_WORD};
use psx_flow::{Node, Test, op, register};

/// r4 is the buffer. r8 is the address of the word that is read next, and r25 how many are to come.
pub const NODES: [Node; 37] = [
    op!(OR r8, r0, r4),
    op!(ADDIU r25, r0, 12),
    // The words that were read stand in the last of r13 to r24, and the next one comes behind them.
    Node::While(Test::Differ(register!(r25), register!(r0))),
    Node::Call(READ_WORD),
    Node::If(Test::Same(register!(r10), register!(r0))),
    Node::Jump(BAD_POINTER),
    Node::End,
    op!(OR r13, r0, r14),
    op!(OR r14, r0, r15),
    op!(OR r15, r0, r16),
    op!(OR r16, r0, r17),
    op!(OR r17, r0, r18),
    op!(OR r18, r0, r19),
    op!(OR r19, r0, r20),
    op!(OR r20, r0, r21),
    op!(OR r21, r0, r22),
    op!(OR r22, r0, r23),
    op!(OR r23, r0, r24),
    op!(OR r24, r0, r9),
    op!(ADDIU r8, r8, 4),
    op!(ADDIU r25, r25, 0xFFFF),
    Node::End,
    op!(LUI r12, places::DATA),
    op!(SW r13, r12, SAVED + 4 * 31),
    op!(SW r14, r12, SAVED + 4 * 29),
    op!(SW r15, r12, SAVED + 4 * 30),
    op!(SW r16, r12, SAVED + 4 * 16),
    op!(SW r17, r12, SAVED + 4 * 17),
    op!(SW r18, r12, SAVED + 4 * 18),
    op!(SW r19, r12, SAVED + 4 * 19),
    op!(SW r20, r12, SAVED + 4 * 20),
    op!(SW r21, r12, SAVED + 4 * 21),
    op!(SW r22, r12, SAVED + 4 * 22),
    op!(SW r23, r12, SAVED + 4 * 23),
    op!(SW r24, r12, SAVED + 4 * 28),
    op!(OR r2, r0, r5),
    Node::Jump(LEAVE),
];

/// The listing of A14, longjmp(buf, v), which makes the 12 words from buf on the caller's r31, r29, r30, r16 to r23 and r28. The table's entry leads to it with buf in r4 and v in r5.
/// It ends at LEAVE with v in r2, and the caller has its new r31; or at BAD_POINTER with the first address in r8 at which no word of user memory stands, and no register of the caller's changed.
/// r8 to r25 and r31 are changed too.
pub fn longjmp() -> &'static [Node]
    ensures listing { result.now ≡ NODES }
    ensures well { IsTrue (is_well result.now) }
    ensures spaced { IsTrue (is_spaced result.now) }
    ensures serves { IfSome (tree_of result.now) (λ tree. Serves [] most_steps (call A14) LONGJMP tree) }
{
    &NODES
}
