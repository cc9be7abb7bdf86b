//! A character is written to a file.
ghost use Rattle.std.specs.Prelude.{◌≡◌, IsTrue, IfSome, []};
ghost use Rattle.psx_flow.specs.Reading.{tree_of};
ghost use Rattle.psx_flow.specs.Well.{is_well};
ghost use Rattle.psx_flow.specs.Spaced.{is_spaced};
ghost use Rattle.abs_kernel.specs.declared.calls.CallId.TheVariants.{A09};
ghost use Rattle.abs_kernel.specs.Calls.{call};
ghost use Rattle.kern_stay.specs.Doors.{Serves, most_steps};
ghost use Rattle.kern_file.specs.declared.a09_putc.TheConstants.{NODES};
ghost use Rattle.kern_file.specs.declared.places.TheConstants.{PUTC};

use crate::{errors, places};
use kern_layout::places::FILE_BLOCKS;
use kern_stay::places::LEAVE;
use psx_flow::{Node, Test, op, register};

/// r4 is the character, of which the low byte counts, and r5 the file. r8 is the file's mode where there is one, and r26 is for the console's port.
pub const NODES: [Node; 21] = [
    op!(SLTIU r8, r5, FILE_BLOCKS as u16),
    Node::If(Test::Differ(register!(r8), register!(r0))),
    op!(SLL r8, r5, 2),
    op!(LUI r9, places::DATA),
    op!(ADDU r8, r8, r9),
    op!(LW r8, r8, places::MODES),
    op!(NOP),
    op!(SLTIU r8, r8, 2),
    // A mode of 2 or 3 is open for writing.
    Node::If(Test::Same(register!(r8), register!(r0))),
    op!(LUI r26, places::PORTS),
    op!(SW r4, r26, places::PORT_CONSOLE),
    op!(SLL r2, r4, 24),
    op!(SRL r2, r2, 24),
    Node::Jump(LEAVE),
    Node::End,
    Node::End,
    op!(ADDIU r8, r0, errors::BAD_FILE),
    op!(LUI r9, places::DATA),
    op!(SW r8, r9, places::LAST_ERROR),
    op!(ADDIU r2, r0, 0xFFFF),
    Node::Jump(LEAVE),
];

/// The listing of A09 and B3B, putc(c, f), which writes c's low byte to the console where f is open for writing. The entries of both tables lead to it with c in r4 and f in r5.
/// It ends at LEAVE with that byte in r2; or with FFFFFFFFh, and the error BAD_FILE kept.
/// r8, r9 and r26 are changed too.
pub fn putc() -> &'static [Node]
    ensures listing { result.now ≡ NODES }
    ensures well { IsTrue (is_well result.now) }
    ensures spaced { IsTrue (is_spaced result.now) }
    ensures serves { IfSome (tree_of result.now) (λ tree. Serves [] most_steps (call A09) PUTC tree) }
{
    &NODES
}
