//! The decimal number that a text begins with.
ghost use Rattle.std.specs.Prelude.{◌≡◌, IsTrue, IfSome};
ghost use Rattle.psx_flow.specs.Reading.{tree_of};
ghost use Rattle.psx_flow.specs.Well.{is_well};
ghost use Rattle.psx_flow.specs.Spaced.{is_spaced};
ghost use Rattle.abs_kernel.specs.declared.calls.CallId.TheVariants.{A10};
ghost use Rattle.abs_kernel.specs.Calls.{call};
ghost use Rattle.kern_stay.specs.Doors.{Serves, most_steps};
ghost use Rattle.kern_text.specs.NumberOwn.{number_own};
ghost use Rattle.kern_text.specs.declared.a10_atoi.TheConstants.{NODES};
ghost use Rattle.kern_text.specs.declared.places.TheConstants.{ATOI};

use crate::places::{BLANKS, DIGITS, ROOM};
use kern_stay::places::{BAD_POINTER, LEAVE};
use psx_flow::{Node, Test, op, register};

/// r4 is the text. r2 becomes the number, r6 the base, r13 the address of the rest, and r14 where the text's user memory ends.
pub const NODES: [Node; 15] = [
    op!(OR r2, r0, r0),
    Node::If(Test::Same(register!(r4), register!(r0))),
    Node::Jump(LEAVE),
    Node::End,
    op!(OR r13, r0, r4),
    op!(ADDIU r6, r0, 10),
    op!(OR r8, r0, r4),
    Node::Call(ROOM),
    op!(ADDU r14, r8, r9),
    Node::Call(BLANKS),
    Node::Call(DIGITS),
    Node::If(Test::Same(register!(r10), register!(r0))),
    Node::Jump(BAD_POINTER),
    Node::End,
    Node::Jump(LEAVE),
];

/// The listing of A10, atoi(s), which reads the decimal number that s begins with. The table's entry leads to it with s in r4, and so does that of A11, atol.
/// It ends at LEAVE with the number modulo 2^32 in r2, or with 0 where s is 0; or at BAD_POINTER with the first address in r8 that isn't user memory.
/// r6, r8 to r15, r31, HI and LO are changed too.
pub fn atoi() -> &'static [Node]
    ensures listing { result.now ≡ NODES }
    ensures well { IsTrue (is_well result.now) }
    ensures spaced { IsTrue (is_spaced result.now) }
    ensures serves { IfSome (tree_of result.now) (λ tree. Serves number_own most_steps (call A10) ATOI tree) }
{
    &NODES
}
