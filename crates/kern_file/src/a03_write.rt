//! Bytes are written to a file.
ghost use Rattle.std.specs.Prelude.{◌≡◌, IsTrue};
ghost use Rattle.psx_flow.specs.Well.{is_well};
ghost use Rattle.psx_flow.specs.Spaced.{is_spaced};
ghost use Rattle.abs_kernel.specs.declared.calls.CallId.TheVariants.{A03};
ghost use Rattle.abs_kernel.specs.Calls.{call};
ghost use Rattle.kern_stay.specs.Shared.{tree};
ghost use Rattle.kern_stay.specs.Doors.{most_steps};
ghost use Rattle.kern_stay.specs.Loops.{ServesBy};
ghost use Rattle.kern_file.specs.Own.{own};
ghost use Rattle.kern_file.specs.declared.a03_write.TheConstants.{NODES, LOOP_NODES};
ghost use Rattle.kern_file.specs.declared.places.TheConstants.{WRITE, WRITE_LOOP};

use crate::places::{ROOM, WRITE_LOOP};
use crate::{errors, places};
use kern_layout::places::FILE_BLOCKS;
use kern_stay::places::{BAD_POINTER, LEAVE};
use psx_flow::{Node, Test, op, register};

/// r4 is the file, r5 where the bytes are, and r6 the count.
/// r8 is the address of the byte that comes, r11 where the bytes end, r10 is 1 where that is since no user memory is there, and r26 is for the console's port.
pub const NODES: [Node; 29] = [
    op!(SLTIU r8, r4, FILE_BLOCKS as u16),
    Node::If(Test::Differ(register!(r8), register!(r0))),
    op!(SLL r8, r4, 2),
    op!(LUI r9, places::DATA),
    op!(ADDU r8, r8, r9),
    op!(LW r8, r8, places::MODES),
    op!(NOP),
    op!(SLTIU r8, r8, 2),
    // A mode of 2 or 3 is open for writing.
    Node::If(Test::Same(register!(r8), register!(r0))),
    Node::If(Test::NotAbove(register!(r6))),
    op!(OR r2, r0, r0),
    Node::Jump(LEAVE),
    Node::End,
    op!(OR r8, r0, r5),
    Node::Call(ROOM),
    op!(SLTU r10, r9, r6),
    Node::If(Test::Same(register!(r10), register!(r0))),
    op!(OR r9, r0, r6),
    Node::End,
    op!(ADDU r11, r8, r9),
    op!(LUI r26, places::PORTS),
    Node::Jump(WRITE_LOOP),
    Node::End,
    Node::End,
    op!(ADDIU r8, r0, errors::BAD_FILE),
    op!(LUI r9, places::DATA),
    op!(SW r8, r9, places::LAST_ERROR),
    op!(ADDIU r2, r0, 0xFFFF),
    Node::Jump(LEAVE),
];

/// The bytes before r8 are written, and those up to r11 are user memory.
pub const LOOP_NODES: [Node; 11] = [
    Node::If(Test::Same(register!(r8), register!(r11))),
    Node::If(Test::Differ(register!(r10), register!(r0))),
    Node::Jump(BAD_POINTER),
    Node::End,
    op!(OR r2, r0, r6),
    Node::Jump(LEAVE),
    Node::End,
    op!(LBU r12, 0(r8)),
    op!(ADDIU r8, r8, 1),
    op!(SW r12, r26, places::PORT_CONSOLE),
    Node::Jump(WRITE_LOOP),
];

/// The listing of A03 and B35, write(f, p, n), which writes the n bytes from p on to the console where f is open for writing; and that of its loop, which turns once a byte.
/// The entries of both tables lead to the first with f in r4, p in r5 and n in r6.
/// They end at LEAVE with n in r2, or 0 where n isn't above 0; at BAD_POINTER with the first address in r8 that isn't user memory, and the bytes before it written;
/// or at LEAVE with FFFFFFFFh in r2, and the error BAD_FILE kept.
/// r8 to r12, r26 and r31 are changed too.
pub fn write() -> (&'static [Node], &'static [Node])
    ensures listing { result.0.now ≡ NODES }
    ensures turns { result.1.now ≡ LOOP_NODES }
    ensures well { IsTrue (is_well result.0.now) }
    ensures turns_well { IsTrue (is_well result.1.now) }
    ensures spaced { IsTrue (is_spaced result.0.now) }
    ensures turns_spaced { IsTrue (is_spaced result.1.now) }
    ensures serves { ServesBy own most_steps (call A03) WRITE (tree result.0.now) WRITE_LOOP (tree result.1.now) }
{
    (&NODES, &LOOP_NODES)
}
