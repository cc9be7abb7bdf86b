//! A file is closed.
ghost use Rattle.std.specs.Prelude.{◌≡◌, IsTrue, IfSome, []};
ghost use Rattle.psx_flow.specs.Reading.{tree_of};
ghost use Rattle.psx_flow.specs.Well.{is_well};
ghost use Rattle.psx_flow.specs.Spaced.{is_spaced};
ghost use Rattle.abs_kernel.specs.declared.calls.CallId.TheVariants.{A04};
ghost use Rattle.abs_kernel.specs.Calls.{call};
ghost use Rattle.kern_stay.specs.Doors.{Serves, most_steps};
ghost use Rattle.kern_file.specs.declared.a04_close.TheConstants.{NODES};
ghost use Rattle.kern_file.specs.declared.places.TheConstants.{CLOSE};

use crate::{errors, places};
use kern_layout::places::FILE_BLOCKS;
use kern_stay::places::LEAVE;
use psx_flow::{Node, Test, op, register};

/// r4 is the file. r9 is its mode where there is one, which is kept behind r8.
pub const NODES: [Node; 18] = [
    op!(SLTIU r8, r4, FILE_BLOCKS as u16),
    Node::If(Test::Differ(register!(r8), register!(r0))),
    op!(SLL r8, r4, 2),
    op!(LUI r9, places::DATA),
    op!(ADDU r8, r8, r9),
    op!(LW r9, r8, places::MODES),
    op!(NOP),
    Node::If(Test::Differ(register!(r9), register!(r0))),
    op!(SW r0, r8, places::MODES),
    op!(OR r2, r0, r4),
    Node::Jump(LEAVE),
    Node::End,
    Node::End,
    op!(ADDIU r8, r0, errors::BAD_FILE),
    op!(LUI r9, places::DATA),
    op!(SW r8, r9, places::LAST_ERROR),
    op!(ADDIU r2, r0, 0xFFFF),
    Node::Jump(LEAVE),
];

/// The listing of A04 and B36, close(f), which closes f where it is open. The entries of both tables lead to it with f in r4.
/// It ends at LEAVE with f in r2; or with FFFFFFFFh, and the error BAD_FILE kept.
/// r8 and r9 are changed too.
pub fn close() -> &'static [Node]
    ensures listing { result.now ≡ NODES }
    ensures well { IsTrue (is_well result.now) }
    ensures spaced { IsTrue (is_spaced result.now) }
    ensures serves { IfSome (tree_of result.now) (λ tree. Serves [] most_steps (call A04) CLOSE tree) }
{
    &NODES
}
