//! A byte of a file is waited for.
ghost use Rattle.std.specs.Prelude.{◌≡◌, IsTrue, IfSome, []};
ghost use Rattle.psx_flow.specs.Reading.{tree_of};
ghost use Rattle.psx_flow.specs.Well.{is_well};
ghost use Rattle.psx_flow.specs.Spaced.{is_spaced};
ghost use Rattle.abs_kernel.specs.declared.calls.CallId.TheVariants.{A08};
ghost use Rattle.abs_kernel.specs.Calls.{call};
ghost use Rattle.kern_stay.specs.Doors.{Serves, most_steps};
ghost use Rattle.kern_file.specs.declared.a08_getc.TheConstants.{NODES};
ghost use Rattle.kern_file.specs.declared.places.TheConstants.{GETC};

use crate::{errors, places};
use kern_layout::places::FILE_BLOCKS;
use kern_stay::places::{LEAVE, WAIT};
use psx_flow::{Node, Test, op, register};

/// r4 is the file. r8 is the file's mode where there is one, and then the status; r26 is for the console's ports.
pub const NODES: [Node; 27] = [
    op!(SLTIU r8, r4, FILE_BLOCKS as u16),
    Node::If(Test::Differ(register!(r8), register!(r0))),
    op!(SLL r8, r4, 2),
    op!(LUI r9, places::DATA),
    op!(ADDU r8, r8, r9),
    op!(LW r8, r8, places::MODES),
    op!(NOP),
    op!(SLL r8, r8, 31),
    // A mode of 1 or 3 is open for reading.
    Node::If(Test::Differ(register!(r8), register!(r0))),
    op!(LUI r26, places::PORTS),
    op!(LW r8, r26, places::PORT_STATUS),
    op!(NOP),
    Node::If(Test::Same(register!(r8), register!(r0))),
    Node::Jump(WAIT),
    Node::End,
    op!(LW r2, r26, places::PORT_CONSOLE),
    op!(NOP),
    op!(SLL r2, r2, 24),
    op!(SRL r2, r2, 24),
    Node::Jump(LEAVE),
    Node::End,
    Node::End,
    op!(ADDIU r8, r0, errors::BAD_FILE),
    op!(LUI r9, places::DATA),
    op!(SW r8, r9, places::LAST_ERROR),
    op!(ADDIU r2, r0, 0xFFFF),
    Node::Jump(LEAVE),
];

/// The listing of A08 and B3A, getc(f), which takes a byte of the console where f is open for reading. The entries of both tables lead to it with f in r4.
/// It ends at LEAVE with the byte in r2, or with FFFFFFFFh and the error BAD_FILE kept; or at WAIT, where no byte is due.
/// r8, r9 and r26 are changed too.
pub fn getc() -> &'static [Node]
    ensures listing { result.now ≡ NODES }
    ensures well { IsTrue (is_well result.now) }
    ensures spaced { IsTrue (is_spaced result.now) }
    ensures serves { IfSome (tree_of result.now) (λ tree. Serves [] most_steps (call A08) GETC tree) }
{
    &NODES
}
