//! The first byte of a text that is in a set.
ghost use Rattle.std.specs.Prelude.{◌≡◌, IsTrue, IfSome};
ghost use Rattle.psx_flow.specs.Reading.{tree_of};
ghost use Rattle.psx_flow.specs.Well.{is_well};
ghost use Rattle.psx_flow.specs.Spaced.{is_spaced};
ghost use Rattle.abs_kernel.specs.declared.calls.CallId.TheVariants.{A20};
ghost use Rattle.abs_kernel.specs.Calls.{call};
ghost use Rattle.kern_stay.specs.Doors.{Serves, most_steps};
ghost use Rattle.kern_text.specs.SetOwn.{set_own};
ghost use Rattle.kern_text.specs.declared.a20_strpbrk.TheConstants.{NODES};
ghost use Rattle.kern_text.specs.declared.places.TheConstants.{STRPBRK};

use crate::places::{ROOM, SKIP};
use kern_stay::places::{BAD_POINTER, LEAVE};
use psx_flow::{Node, Test, op, register};

/// r4 is the text and r5 the set. r14 and r15 are where their user memory ends; r13 tells SKIP which bytes to pass over.
pub const NODES: [Node; 23] = [
    op!(OR r2, r0, r0),
    Node::If(Test::Same(register!(r4), register!(r0))),
    Node::Jump(LEAVE),
    Node::End,
    Node::If(Test::Same(register!(r5), register!(r0))),
    Node::Jump(LEAVE),
    Node::End,
    op!(OR r8, r0, r5),
    Node::Call(ROOM),
    op!(ADDU r15, r8, r9),
    op!(OR r8, r0, r4),
    Node::Call(ROOM),
    op!(ADDU r14, r8, r9),
    op!(OR r13, r0, r0),
    Node::Call(SKIP),
    Node::If(Test::Same(register!(r10), register!(r0))),
    Node::Jump(BAD_POINTER),
    Node::End,
    op!(OR r2, r0, r8),
    Node::If(Test::Same(register!(r12), register!(r0))),
    op!(OR r2, r0, r0),
    Node::End,
    Node::Jump(LEAVE),
];

/// The listing of A20, strpbrk(s, set), which finds the first byte of s that is in set. The table's entry leads to it with s in r4 and set in r5.
/// It ends at LEAVE with that byte's address, or with 0 where there is none, in r2, or with 0 where s or set is 0; or at BAD_POINTER with the first address in r8 that isn't user memory.
/// r8 to r15, r24, r25 and r31 are changed too.
pub fn strpbrk() -> &'static [Node]
    ensures listing { result.now ≡ NODES }
    ensures well { IsTrue (is_well result.now) }
    ensures spaced { IsTrue (is_spaced result.now) }
    ensures serves { IfSome (tree_of result.now) (λ tree. Serves set_own most_steps (call A20) STRPBRK tree) }
{
    &NODES
}
