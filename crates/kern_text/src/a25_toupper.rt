//! A letter's capital.
ghost use Rattle.std.specs.Prelude.{◌≡◌, IsTrue, IfSome, []};
ghost use Rattle.psx_flow.specs.Reading.{tree_of};
ghost use Rattle.psx_flow.specs.Well.{is_well};
ghost use Rattle.psx_flow.specs.Spaced.{is_spaced};
ghost use Rattle.abs_kernel.specs.declared.calls.CallId.TheVariants.{A25};
ghost use Rattle.abs_kernel.specs.Calls.{call};
ghost use Rattle.kern_stay.specs.Doors.{Serves, most_steps};
ghost use Rattle.kern_text.specs.declared.a25_toupper.TheConstants.{NODES};
ghost use Rattle.kern_text.specs.declared.places.TheConstants.{TOUPPER};

use kern_stay::places::LEAVE;
use psx_flow::{Node, Test, op, register};

/// r4 is the character. r8 tells whether its low byte is a small letter.
pub const NODES: [Node; 8] = [
    op!(SLL r2, r4, 24),
    op!(SRL r2, r2, 24),
    op!(ADDIU r8, r2, 0xFF9F),
    op!(SLTIU r8, r8, 26),
    Node::If(Test::Differ(register!(r8), register!(r0))),
    op!(ADDIU r2, r2, 0xFFE0),
    Node::End,
    Node::Jump(LEAVE),
];

/// The listing of A25, toupper(c), which answers c's low byte, a small letter as its capital. The table's entry leads to it with c in r4.
/// It ends at LEAVE with the answer in r2. r8 is changed too.
pub fn toupper() -> &'static [Node]
    ensures listing { result.now ≡ NODES }
    ensures well { IsTrue (is_well result.now) }
    ensures spaced { IsTrue (is_spaced result.now) }
    ensures serves { IfSome (tree_of result.now) (λ tree. Serves [] most_steps (call A25) TOUPPER tree) }
{
    &NODES
}
