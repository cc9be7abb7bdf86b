//! The last byte of a text that is one.
ghost use Rattle.std.specs.Prelude.{◌≡◌, IsTrue, IfSome};
ghost use Rattle.psx_flow.specs.Reading.{tree_of};
ghost use Rattle.psx_flow.specs.Well.{is_well};
ghost use Rattle.psx_flow.specs.Spaced.{is_spaced};
ghost use Rattle.abs_kernel.specs.declared.calls.CallId.TheVariants.{A1F};
ghost use Rattle.abs_kernel.specs.Calls.{call};
ghost use Rattle.kern_stay.specs.Doors.{Serves, most_steps};
ghost use Rattle.kern_text.specs.Own.{own};
ghost use Rattle.kern_text.specs.declared.a1f_strrchr.TheConstants.{NODES};
ghost use Rattle.kern_text.specs.declared.places.TheConstants.{STRRCHR};

use crate::places::ROOM;
use kern_stay::places::{BAD_POINTER, LEAVE};
use psx_flow::{Node, Test, op, register};

/// r4 is the text, r5 the byte. r8 is the address of the byte that comes, r11 where user memory ends, and r2 the address of the last r5 so far, or 0.
pub const NODES: [Node; 21] = [
    Node::If(Test::Same(register!(r4), register!(r0))),
    op!(OR r2, r0, r0),
    Node::Jump(LEAVE),
    Node::End,
    op!(SLL r5, r5, 24),
    op!(SRL r5, r5, 24),
    op!(OR r2, r0, r0),
    op!(OR r8, r0, r4),
    Node::Call(ROOM),
    op!(ADDU r11, r8, r9),
    // The bytes before r8 are user memory and not 0, and those up to r11 are user memory.
    Node::While(Test::Differ(register!(r8), register!(r11))),
    op!(LBU r12, 0(r8)),
    op!(ADDIU r8, r8, 1),
    Node::If(Test::Same(register!(r12), register!(r5))),
    op!(ADDIU r2, r8, 0xFFFF),
    Node::End,
    Node::If(Test::Same(register!(r12), register!(r0))),
    Node::Jump(LEAVE),
    Node::End,
    Node::End,
    Node::Jump(BAD_POINTER),
];

/// The listing of A1F, strrchr(s, c), which finds the last c's low byte in a text, whose zero is among its bytes.
/// The table's entry leads to it with s in r4 and c in r5, and so does that of A1D, rindex.
/// It ends at LEAVE with the address of that byte in r2, or with 0 where there is none or s is 0; or at BAD_POINTER with the first address in r8 that isn't user memory.
/// r5, r8 to r12 and r31 are changed too.
pub fn strrchr() -> &'static [Node]
    ensures listing { result.now ≡ NODES }
    ensures well { IsTrue (is_well result.now) }
    ensures spaced { IsTrue (is_spaced result.now) }
    ensures serves { IfSome (tree_of result.now) (λ tree. Serves own most_steps (call A1F) STRRCHR tree) }
{
    &NODES
}
