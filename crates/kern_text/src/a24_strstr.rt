//! The first place where a text stands in another.
ghost use Rattle.std.specs.Prelude.{◌≡◌, IsTrue, IfSome};
ghost use Rattle.psx_flow.specs.Reading.{tree_of};
ghost use Rattle.psx_flow.specs.Well.{is_well};
ghost use Rattle.psx_flow.specs.Spaced.{is_spaced};
ghost use Rattle.abs_kernel.specs.declared.calls.CallId.TheVariants.{A24};
ghost use Rattle.abs_kernel.specs.Calls.{call};
ghost use Rattle.kern_stay.specs.Doors.{Serves, most_steps};
ghost use Rattle.kern_text.specs.Own.{own};
ghost use Rattle.kern_text.specs.declared.a24_strstr.TheConstants.{NODES};
ghost use Rattle.kern_text.specs.declared.places.TheConstants.{STRSTR};

use crate::places::ROOM;
use kern_stay::places::{BAD_POINTER, LEAVE};
use psx_flow::{Node, Test, op, register};

/// r4 is the text and r5 the one that is looked for. r14 and r15 are where their user memory ends; r13 is where it may stand.
pub const NODES: [Node; 42] = [
    op!(OR r2, r0, r0),
    Node::If(Test::Same(register!(r4), register!(r0))),
    Node::Jump(LEAVE),
    Node::End,
    Node::If(Test::Same(register!(r5), register!(r0))),
    Node::Jump(LEAVE),
    Node::End,
    op!(OR r8, r0, r5),
    Node::Call(ROOM),
    op!(ADDU r15, r8, r9),
    op!(OR r8, r0, r4),
    Node::Call(ROOM),
    op!(ADDU r14, r8, r9),
    op!(OR r13, r0, r4),
    // Up to r13 t stands nowhere.
    Node::While(Test::Same(register!(r0), register!(r0))),
    op!(OR r8, r0, r13),
    op!(OR r9, r0, r5),
    op!(OR r10, r0, r0),
    op!(OR r12, r0, r0),
    // The bytes from r13 up to r8 are those from r5 up to r9, or the last of them differs.
    Node::While(Test::Same(register!(r10), register!(r12))),
    Node::If(Test::Same(register!(r9), register!(r15))),
    op!(OR r8, r0, r9),
    Node::Jump(BAD_POINTER),
    Node::End,
    op!(LBU r12, 0(r9)),
    op!(ADDIU r9, r9, 1),
    Node::If(Test::Same(register!(r12), register!(r0))),
    op!(OR r2, r0, r13),
    Node::Jump(LEAVE),
    Node::End,
    Node::If(Test::Same(register!(r8), register!(r14))),
    Node::Jump(BAD_POINTER),
    Node::End,
    op!(LBU r10, 0(r8)),
    op!(ADDIU r8, r8, 1),
    Node::If(Test::Same(register!(r10), register!(r0))),
    op!(OR r2, r0, r0),
    Node::Jump(LEAVE),
    Node::End,
    Node::End,
    op!(ADDIU r13, r13, 1),
    Node::End,
];

/// The listing of A24, strstr(s, t), which finds the first place in s where t stands. The table's entry leads to it with s in r4 and t in r5.
/// It ends at LEAVE with that place in r2, or with 0 where there is none, or where s or t is 0; or at BAD_POINTER with the first address in r8 that isn't user memory.
/// r8 to r15 and r31 are changed too.
pub fn strstr() -> &'static [Node]
    ensures listing { result.now ≡ NODES }
    ensures well { IsTrue (is_well result.now) }
    ensures spaced { IsTrue (is_spaced result.now) }
    ensures serves { IfSome (tree_of result.now) (λ tree. Serves own most_steps (call A24) STRSTR tree) }
{
    &NODES
}
