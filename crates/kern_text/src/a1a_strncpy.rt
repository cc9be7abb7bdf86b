//! The first bytes of a text are copied, or zeros for those that it lacks.
ghost use Rattle.std.specs.Prelude.{◌≡◌, IsTrue, IfSome};
ghost use Rattle.psx_flow.specs.Reading.{tree_of};
ghost use Rattle.psx_flow.specs.Well.{is_well};
ghost use Rattle.psx_flow.specs.Spaced.{is_spaced};
ghost use Rattle.abs_kernel.specs.declared.calls.CallId.TheVariants.{A1A};
ghost use Rattle.abs_kernel.specs.Calls.{call};
ghost use Rattle.kern_stay.specs.Doors.{Serves, most_steps};
ghost use Rattle.kern_text.specs.Own.{own};
ghost use Rattle.kern_text.specs.declared.a1a_strncpy.TheConstants.{NODES};
ghost use Rattle.kern_text.specs.declared.places.TheConstants.{STRNCPY};

use crate::places::ROOM;
use kern_stay::places::{BAD_POINTER, LEAVE};
use psx_flow::{Node, Test, op, register};

/// r2 becomes the answer. r5 is the address of the byte that is read next, r14 where the source's room ends. r8 is that of the byte that is written next, r11 where these end.
/// r6 is the count, and r10 is 1 where user memory ends at the destination before it does.
pub const NODES: [Node; 42] = [
    Node::If(Test::Same(register!(r5), register!(r0))),
    op!(OR r4, r0, r0),
    Node::End,
    op!(OR r2, r0, r4),
    Node::If(Test::Same(register!(r4), register!(r0))),
    Node::Jump(LEAVE),
    Node::End,
    Node::If(Test::NotAbove(register!(r6))),
    Node::Jump(LEAVE),
    Node::End,
    op!(OR r8, r0, r5),
    Node::Call(ROOM),
    op!(ADDU r14, r8, r9),
    op!(OR r8, r0, r4),
    Node::Call(ROOM),
    op!(SLTU r10, r9, r6),
    Node::If(Test::Same(register!(r10), register!(r0))),
    op!(OR r9, r0, r6),
    Node::End,
    op!(ADDU r11, r8, r9),
    op!(OR r12, r0, r4),
    // The bytes up to r8 are written, and those up to r11 are user memory. The bytes up to r5 are read, and those up to r14 are user memory; r12 is the last one, and 0 where it is the text's zero.
    Node::While(Test::Differ(register!(r8), register!(r11))),
    Node::If(Test::Differ(register!(r12), register!(r0))),
    Node::If(Test::Same(register!(r5), register!(r14))),
    op!(OR r8, r0, r5),
    Node::Jump(BAD_POINTER),
    Node::End,
    op!(LBU r12, 0(r5)),
    op!(ADDIU r5, r5, 1),
    Node::End,
    op!(SB r12, 0(r8)),
    op!(ADDIU r8, r8, 1),
    Node::End,
    Node::If(Test::Same(register!(r10), register!(r0))),
    Node::Jump(LEAVE),
    Node::End,
    // The destination is bad, or the source is, which is read first.
    Node::If(Test::Differ(register!(r12), register!(r0))),
    Node::If(Test::Same(register!(r5), register!(r14))),
    op!(OR r8, r0, r5),
    Node::End,
    Node::End,
    Node::Jump(BAD_POINTER),
];

/// The listing of A1A, strncpy(d, s, n), which writes n bytes, those of s before its zero and then zeros. The table's entry leads to it with d in r4, s in r5 and n in r6.
/// It ends at LEAVE with d in r2, or with 0 where d or s is 0; or at BAD_POINTER with the first address in r8 that isn't user memory, and the bytes before it written.
/// r4, r5, r8 to r12, r14 and r31 are changed too.
pub fn strncpy() -> &'static [Node]
    ensures listing { result.now ≡ NODES }
    ensures well { IsTrue (is_well result.now) }
    ensures spaced { IsTrue (is_spaced result.now) }
    ensures serves { IfSome (tree_of result.now) (λ tree. Serves own most_steps (call A1A) STRNCPY tree) }
{
    &NODES
}
