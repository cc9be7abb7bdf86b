//! The first bytes of two texts are compared.
ghost use Rattle.std.specs.Prelude.{◌≡◌, IsTrue, IfSome};
ghost use Rattle.psx_flow.specs.Reading.{tree_of};
ghost use Rattle.psx_flow.specs.Well.{is_well};
ghost use Rattle.psx_flow.specs.Spaced.{is_spaced};
ghost use Rattle.abs_kernel.specs.declared.calls.CallId.TheVariants.{A18};
ghost use Rattle.abs_kernel.specs.Calls.{call};
ghost use Rattle.kern_stay.specs.Doors.{Serves, most_steps};
ghost use Rattle.kern_text.specs.Own.{own};
ghost use Rattle.kern_text.specs.declared.a18_strncmp.TheConstants.{NODES};
ghost use Rattle.kern_text.specs.declared.places.TheConstants.{STRNCMP};

use crate::places::ROOM;
use kern_stay::places::{BAD_POINTER, LEAVE};
use psx_flow::{Node, Test, op, register};

/// r4 and r5 are the texts, r6 the count. r8 is the address of the byte of the first text that is read next, r11 where these end, and r9 that of the second one's.
/// r10 is 1 where user memory ends before the count does, and r13 is 1 where the second text's room is less than the first one's.
pub const NODES: [Node; 49] = [
    Node::If(Test::Same(register!(r4), register!(r0))),
    op!(OR r2, r0, r0),
    Node::Jump(LEAVE),
    Node::End,
    Node::If(Test::Same(register!(r5), register!(r0))),
    op!(OR r2, r0, r0),
    Node::Jump(LEAVE),
    Node::End,
    Node::If(Test::NotAbove(register!(r6))),
    op!(OR r2, r0, r0),
    Node::Jump(LEAVE),
    Node::End,
    op!(OR r8, r0, r5),
    Node::Call(ROOM),
    op!(OR r12, r0, r9),
    op!(OR r8, r0, r4),
    Node::Call(ROOM),
    op!(SLTU r13, r12, r9),
    Node::If(Test::Differ(register!(r13), register!(r0))),
    op!(OR r9, r0, r12),
    Node::End,
    op!(SLTU r10, r9, r6),
    Node::If(Test::Same(register!(r10), register!(r0))),
    op!(OR r9, r0, r6),
    Node::End,
    op!(ADDU r11, r8, r9),
    op!(OR r9, r0, r5),
    // The bytes before r8 are those before r9 and not 0, and those up to r11 are user memory, and so are as many from r9 on.
    Node::While(Test::Differ(register!(r8), register!(r11))),
    op!(LBU r12, 0(r8)),
    op!(ADDIU r8, r8, 1),
    op!(LBU r14, 0(r9)),
    op!(ADDIU r9, r9, 1),
    Node::If(Test::Differ(register!(r12), register!(r14))),
    op!(SUBU r2, r12, r14),
    Node::Jump(LEAVE),
    Node::End,
    Node::If(Test::Same(register!(r12), register!(r0))),
    op!(OR r2, r0, r0),
    Node::Jump(LEAVE),
    Node::End,
    Node::End,
    Node::If(Test::Differ(register!(r10), register!(r0))),
    // The first text is bad, or the second alone is.
    Node::If(Test::Differ(register!(r13), register!(r0))),
    op!(OR r8, r0, r9),
    Node::End,
    Node::Jump(BAD_POINTER),
    Node::End,
    op!(OR r2, r0, r0),
    Node::Jump(LEAVE),
];

/// The listing of A18, strncmp(a, b, n), which compares n bytes of two texts at most, each byte of the first one read before that of the second.
/// The table's entry leads to it with a in r4, b in r5 and n in r6.
/// It ends at LEAVE with the first byte of a that differs less that of b in r2, or with 0 where none differs or a or b is 0; or at BAD_POINTER with the first address in r8 that isn't user memory.
/// r8 to r14 and r31 are changed too.
pub fn strncmp() -> &'static [Node]
    ensures listing { result.now ≡ NODES }
    ensures well { IsTrue (is_well result.now) }
    ensures spaced { IsTrue (is_spaced result.now) }
    ensures serves { IfSome (tree_of result.now) (λ tree. Serves own most_steps (call A18) STRNCMP tree) }
{
    &NODES
}
