//! A text is copied.
ghost use Rattle.std.specs.Prelude.{◌≡◌, IsTrue, IfSome};
ghost use Rattle.psx_flow.specs.Reading.{tree_of};
ghost use Rattle.psx_flow.specs.Well.{is_well};
ghost use Rattle.psx_flow.specs.Spaced.{is_spaced};
ghost use Rattle.abs_kernel.specs.declared.calls.CallId.TheVariants.{A19};
ghost use Rattle.abs_kernel.specs.Calls.{call};
ghost use Rattle.kern_stay.specs.Doors.{Serves, most_steps};
ghost use Rattle.kern_text.specs.Own.{own};
ghost use Rattle.kern_text.specs.declared.a19_strcpy.TheConstants.{NODES};
ghost use Rattle.kern_text.specs.declared.places.TheConstants.{STRCPY};

use crate::places::ROOM;
use kern_stay::places::{BAD_POINTER, LEAVE};
use psx_flow::{Node, Test, op, register};

/// r2 becomes the answer. r5 is the address of the byte that is read next, r11 where these end, and r8 that of the byte that is written next.
/// r13 is the source's room, and r14 is where the destination's ends.
/// r6 is how many bytes there may be, more than any text has. r10 is 1 where the source ends in memory that isn't the user's before they have come and before the destination does.
pub const NODES: [Node; 43] = [
    Node::If(Test::Same(register!(r5), register!(r0))),
    op!(OR r4, r0, r0),
    Node::End,
    op!(OR r2, r0, r4),
    Node::If(Test::Same(register!(r4), register!(r0))),
    Node::Jump(LEAVE),
    Node::End,
    op!(OR r8, r0, r5),
    Node::Call(ROOM),
    op!(OR r13, r0, r9),
    op!(OR r8, r0, r4),
    Node::Call(ROOM),
    op!(ADDU r14, r8, r9),
    op!(LUI r6, 0x0020),
    op!(SUBU r12, r14, r8),
    op!(SLTU r11, r12, r13),
    Node::If(Test::Differ(register!(r11), register!(r0))),
    op!(OR r13, r0, r12),
    Node::End,
    op!(SLTU r10, r13, r6),
    Node::If(Test::Same(register!(r10), register!(r0))),
    op!(OR r13, r0, r6),
    Node::End,
    op!(SLTU r10, r11, r10),
    op!(ADDU r11, r5, r13),
    // The bytes up to r5 are copied, to those up to r8, and none is 0. Those up to r11 are user memory, and so are as many from r8 on.
    Node::While(Test::Differ(register!(r5), register!(r11))),
    op!(LBU r12, 0(r5)),
    op!(ADDIU r5, r5, 1),
    op!(SB r12, 0(r8)),
    op!(ADDIU r8, r8, 1),
    Node::If(Test::Same(register!(r12), register!(r0))),
    Node::Jump(LEAVE),
    Node::End,
    Node::End,
    Node::If(Test::Same(register!(r10), register!(r0))),
    Node::If(Test::Differ(register!(r8), register!(r14))),
    op!(SB r0, 0(r8)),
    Node::Jump(LEAVE),
    Node::End,
    // The destination is bad.
    op!(OR r5, r0, r8),
    Node::End,
    op!(OR r8, r0, r5),
    Node::Jump(BAD_POINTER),
];

/// The listing of A19, strcpy(d, s), which copies the bytes of s with its zero, each read before it is written. The table's entry leads to it with d in r4 and s in r5.
/// It ends at LEAVE with d in r2, or with 0 where d or s is 0; or at BAD_POINTER with the first address in r8 that isn't user memory, and the bytes before it written.
/// r4 to r6, r8 to r14 and r31 are changed too.
pub fn strcpy() -> &'static [Node]
    ensures listing { result.now ≡ NODES }
    ensures well { IsTrue (is_well result.now) }
    ensures spaced { IsTrue (is_spaced result.now) }
    ensures serves { IfSome (tree_of result.now) (λ tree. Serves own most_steps (call A19) STRCPY tree) }
{
    &NODES
}
