//! The number that a text begins with.
ghost use Rattle.std.specs.Prelude.{◌≡◌, IsTrue, IfSome};
ghost use Rattle.psx_flow.specs.Reading.{tree_of};
ghost use Rattle.psx_flow.specs.Well.{is_well};
ghost use Rattle.psx_flow.specs.Spaced.{is_spaced};
ghost use Rattle.abs_kernel.specs.declared.calls.CallId.TheVariants.{A0D};
ghost use Rattle.abs_kernel.specs.Calls.{call};
ghost use Rattle.kern_stay.specs.Doors.{Serves, most_steps};
ghost use Rattle.kern_text.specs.NumberOwn.{number_own};
ghost use Rattle.kern_text.specs.declared.a0d_strtol.TheConstants.{NODES};
ghost use Rattle.kern_text.specs.declared.places.TheConstants.{STRTOL};

use crate::places::{BLANKS, DIGITS, PREFIX, ROOM};
use kern_stay::places::{BAD_POINTER, LEAVE, WRITE_WORD};
use psx_flow::{Node, Test, op, register};

/// r4 is the text, r5 where the address of its rest is told, and r6 the base. r2 becomes the number, r13 the address of the rest, and r14 where the text's user memory ends.
pub const NODES: [Node; 30] = [
    op!(OR r2, r0, r0),
    Node::If(Test::Same(register!(r4), register!(r0))),
    Node::Jump(LEAVE),
    Node::End,
    op!(OR r13, r0, r4),
    op!(ADDIU r10, r6, 0xFFFE),
    op!(SLTIU r10, r10, 35),
    op!(SLTIU r11, r6, 1),
    op!(ADDU r10, r10, r11),
    // In another base than 0 and 2 to 36 no byte is read.
    Node::If(Test::Differ(register!(r10), register!(r0))),
    op!(OR r8, r0, r4),
    Node::Call(ROOM),
    op!(ADDU r14, r8, r9),
    Node::Call(BLANKS),
    Node::Call(PREFIX),
    Node::Call(DIGITS),
    Node::If(Test::Same(register!(r10), register!(r0))),
    Node::Jump(BAD_POINTER),
    Node::End,
    Node::End,
    Node::If(Test::Same(register!(r5), register!(r0))),
    Node::Jump(LEAVE),
    Node::End,
    op!(OR r8, r0, r5),
    op!(OR r9, r0, r13),
    Node::Call(WRITE_WORD),
    Node::If(Test::Same(register!(r10), register!(r0))),
    Node::Jump(BAD_POINTER),
    Node::End,
    Node::Jump(LEAVE),
];

/// The listing of A0D, strtol(s, end, base), which reads the number that s begins with, in a base or in the one that its prefix says.
/// The table's entry leads to it with s in r4, end in r5 and the base in r6, and so does that of A0C, strtoul.
/// It ends at LEAVE with the number modulo 2^32 in r2, and the address of the rest written at end where this isn't 0; or with 0 where s is 0;
/// or at BAD_POINTER with the first address in r8 that isn't user memory, or at which no word of it stands.
/// r6, r8 to r15, r31, HI and LO are changed too.
pub fn strtol() -> &'static [Node]
    ensures listing { result.now ≡ NODES }
    ensures well { IsTrue (is_well result.now) }
    ensures spaced { IsTrue (is_spaced result.now) }
    ensures serves { IfSome (tree_of result.now) (λ tree. Serves number_own most_steps (call A0D) STRTOL tree) }
{
    &NODES
}
