//! A capital's small letter.
ghost use Rattle.std.specs.Prelude.{◌≡◌, IsTrue, IfSome, []};
ghost use Rattle.psx_flow.specs.Reading.{tree_of};
ghost use Rattle.psx_flow.specs.Well.{is_well};
ghost use Rattle.psx_flow.specs.Spaced.{is_spaced};
ghost use Rattle.abs_kernel.specs.declared.calls.CallId.TheVariants.{A26};
ghost use Rattle.abs_kernel.specs.Calls.{call};
ghost use Rattle.kern_stay.specs.Doors.{Serves, most_steps};
ghost use Rattle.kern_text.specs.declared.a26_tolower.TheConstants.{NODES};
ghost use Rattle.kern_text.specs.declared.places.TheConstants.{TOLOWER};

use kern_stay::places::LEAVE;
use psx_flow::{Node, Test, op, register};

/// r4 is the character. r8 tells whether its low byte is a capital.
pub const NODES: [Node; 8] = [
    op!(SLL r2, r4, 24),
    op!(SRL r2, r2, 24),
    op!(ADDIU r8, r2, 0xFFBF),
    op!(SLTIU r8, r8, 26),
    Node::If(Test::Differ(register!(r8), register!(r0))),
    op!(ADDIU r2, r2, 0x20),
    Node::End,
    Node::Jump(LEAVE),
];

/// The listing of A26, tolower(c), which answers c's low byte, a capital as its small letter. The table's entry leads to it with c in r4.
/// It ends at LEAVE with the answer in r2. r8 is changed too.
pub fn tolower() -> &'static [Node]
    ensures listing { result.now ≡ NODES }
    ensures well { IsTrue (is_well result.now) }
    ensures spaced { IsTrue (is_spaced result.now) }
    ensures serves { IfSome (tree_of result.now) (λ tree. Serves [] most_steps (call A26) TOLOWER tree) }
{
    &NODES
}
