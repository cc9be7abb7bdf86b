//! A number without its sign.
ghost use Rattle.std.specs.Prelude.{◌≡◌, IsTrue, IfSome, []};
ghost use Rattle.psx_flow.specs.Reading.{tree_of};
ghost use Rattle.psx_flow.specs.Well.{is_well};
ghost use Rattle.psx_flow.specs.Spaced.{is_spaced};
ghost use Rattle.abs_kernel.specs.declared.calls.CallId.TheVariants.{A0E};
ghost use Rattle.abs_kernel.specs.Calls.{call};
ghost use Rattle.kern_stay.specs.Doors.{Serves, most_steps};
ghost use Rattle.kern_text.specs.declared.a0e_abs.TheConstants.{NODES};
ghost use Rattle.kern_text.specs.declared.places.TheConstants.{ABS};

use kern_stay::places::LEAVE;
use psx_flow::{Node, Test, op, register};

/// r4 is the number.
pub const NODES: [Node; 5] = [
    op!(OR r2, r0, r4),
    Node::If(Test::Negative(register!(r4))),
    op!(SUBU r2, r0, r4),
    Node::End,
    Node::Jump(LEAVE),
];

/// The listing of A0E, abs(a), which answers a without its sign, and 80000000h as it is. The table's entry leads to it with a in r4, and so does that of A0F, labs.
/// It ends at LEAVE with the answer in r2. No other register is changed.
pub fn abs() -> &'static [Node]
    ensures listing { result.now ≡ NODES }
    ensures well { IsTrue (is_well result.now) }
    ensures spaced { IsTrue (is_spaced result.now) }
    ensures serves { IfSome (tree_of result.now) (λ tree. Serves [] most_steps (call A0E) ABS tree) }
{
    &NODES
}
