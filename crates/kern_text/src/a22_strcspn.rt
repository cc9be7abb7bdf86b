//! How many bytes that aren't in a set a text begins with.
ghost use Rattle.std.specs.Prelude.{◌≡◌, IsTrue, IfSome};
ghost use Rattle.psx_flow.specs.Reading.{tree_of};
ghost use Rattle.psx_flow.specs.Well.{is_well};
ghost use Rattle.psx_flow.specs.Spaced.{is_spaced};
ghost use Rattle.abs_kernel.specs.declared.calls.CallId.TheVariants.{A22};
ghost use Rattle.abs_kernel.specs.Calls.{call};
ghost use Rattle.kern_stay.specs.Doors.{Serves, most_steps};
ghost use Rattle.kern_text.specs.SetOwn.{set_own};
ghost use Rattle.kern_text.specs.declared.a22_strcspn.TheConstants.{NODES};
ghost use Rattle.kern_text.specs.declared.places.TheConstants.{STRCSPN};

use crate::places::{ROOM, SKIP};
use kern_stay::places::{BAD_POINTER, LEAVE};
use psx_flow::{Node, Test, op, register};

/// r4 is the text and r5 the set. r14 and r15 are where their user memory ends; r13 tells SKIP which bytes to pass over.
pub const NODES: [Node; 20] = [
    op!(OR r2, r0, r0),
    Node::If(Test::Same(register!(r4), register!(r0))),
    Node::Jump(LEAVE),
    Node::End,
    Node::If(Test::Same(register!(r5), register!(r0))),
    Node::Jump(LEAVE),
    Node::End,
    op!(OR r8, r0, r5),
    Node::Call(ROOM),
    op!(ADDU r15, r8, r9),
    op!(OR r8, r0, r4),
    Node::Call(ROOM),
    op!(ADDU r14, r8, r9),
    op!(OR r13, r0, r0),
    Node::Call(SKIP),
    Node::If(Test::Same(register!(r10), register!(r0))),
    Node::Jump(BAD_POINTER),
    Node::End,
    op!(SUBU r2, r8, r4),
    Node::Jump(LEAVE),
];

/// The listing of A22, strcspn(s, set), which counts the bytes that aren't in set and that s begins with. The table's entry leads to it with s in r4 and set in r5.
/// It ends at LEAVE with that number in r2, or with 0 where s or set is 0; or at BAD_POINTER with the first address in r8 that isn't user memory.
/// r8 to r15, r24, r25 and r31 are changed too.
pub fn strcspn() -> &'static [Node]
    ensures listing { result.now ≡ NODES }
    ensures well { IsTrue (is_well result.now) }
    ensures spaced { IsTrue (is_spaced result.now) }
    ensures serves { IfSome (tree_of result.now) (λ tree. Serves set_own most_steps (call A22) STRCSPN tree) }
{
    &NODES
}
