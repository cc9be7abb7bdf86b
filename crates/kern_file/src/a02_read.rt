//! Bytes of a file are waited for.
ghost use Rattle.std.specs.Prelude.{◌≡◌, IsTrue};
ghost use Rattle.psx_flow.specs.Well.{is_well};
ghost use Rattle.psx_flow.specs.Spaced.{is_spaced};
ghost use Rattle.abs_kernel.specs.declared.calls.CallId.TheVariants.{A02};
ghost use Rattle.abs_kernel.specs.Calls.{call};
ghost use Rattle.kern_stay.specs.Shared.{tree};
ghost use Rattle.kern_stay.specs.Doors.{most_steps};
ghost use Rattle.kern_stay.specs.Loops.{ServesBy};
ghost use Rattle.kern_file.specs.Own.{own};
ghost use Rattle.kern_file.specs.declared.a02_read.TheConstants.{NODES, LOOP_NODES};
ghost use Rattle.kern_file.specs.declared.places.TheConstants.{READ, READ_LOOP};

use crate::places::{READ_LOOP, ROOM};
use crate::{errors, places};
use kern_layout::places::FILE_BLOCKS;
use kern_stay::places::{BAD_POINTER, LEAVE, WAIT};
use psx_flow::{Node, Test, op, register};

/// r4 is the file, r5 the place, and r6 the count. r8 is the address of the byte that comes, r11 where the places end, and r10 is 1 where that is since no user memory is there.
/// r26 is for the console's ports.
pub const NODES: [Node; 29] = [
    op!(SLTIU r8, r4, FILE_BLOCKS as u16),
    Node::If(Test::Differ(register!(r8), register!(r0))),
    op!(SLL r8, r4, 2),
    op!(LUI r9, places::DATA),
    op!(ADDU r8, r8, r9),
    op!(LW r8, r8, places::MODES),
    op!(NOP),
    op!(SLL r8, r8, 31),
    // A mode of 1 or 3 is open for reading.
    Node::If(Test::Differ(register!(r8), register!(r0))),
    Node::If(Test::NotAbove(register!(r6))),
    op!(OR r2, r0, r0),
    Node::Jump(LEAVE),
    Node::End,
    op!(OR r8, r0, r5),
    Node::Call(ROOM),
    op!(SLTU r10, r9, r6),
    Node::If(Test::Same(register!(r10), register!(r0))),
    op!(OR r9, r0, r6),
    Node::End,
    op!(ADDU r11, r8, r9),
    op!(LUI r26, places::PORTS),
    Node::Jump(READ_LOOP),
    Node::End,
    Node::End,
    op!(ADDIU r8, r0, errors::BAD_FILE),
    op!(LUI r9, places::DATA),
    op!(SW r8, r9, places::LAST_ERROR),
    op!(ADDIU r2, r0, 0xFFFF),
    Node::Jump(LEAVE),
];

/// The places before r8 have their bytes, and those up to r11 are user memory.
pub const LOOP_NODES: [Node; 20] = [
    Node::If(Test::Same(register!(r8), register!(r11))),
    Node::If(Test::Differ(register!(r10), register!(r0))),
    Node::Jump(BAD_POINTER),
    Node::End,
    op!(SUBU r2, r8, r5),
    Node::Jump(LEAVE),
    Node::End,
    op!(LW r9, r26, places::PORT_STATUS),
    op!(NOP),
    Node::If(Test::Same(register!(r9), register!(r0))),
    Node::If(Test::Same(register!(r8), register!(r5))),
    Node::Jump(WAIT),
    Node::End,
    op!(SUBU r2, r8, r5),
    Node::Jump(LEAVE),
    Node::End,
    op!(LW r9, r26, places::PORT_CONSOLE),
    op!(ADDIU r8, r8, 1),
    op!(SB r9, 0xFFFF(r8)),
    Node::Jump(READ_LOOP),
];

/// The listing of A02 and B34, read(f, p, n), which takes at most n bytes of the console where f is open for reading, and writes them from p on.
/// The second listing is its loop, which turns once a byte.
/// The entries of both tables lead to the first with f in r4, p in r5 and n in r6.
/// They end at LEAVE with how many came in r2, or 0 where n isn't above 0; at WAIT, where none came;
/// at BAD_POINTER with the first address in r8 that isn't user memory, and the bytes before it written;
/// or at LEAVE with FFFFFFFFh in r2, and the error BAD_FILE kept.
/// r8 to r11, r26 and r31 are changed too.
pub fn read() -> (&'static [Node], &'static [Node])
    ensures listing { result.0.now ≡ NODES }
    ensures turns { result.1.now ≡ LOOP_NODES }
    ensures well { IsTrue (is_well result.0.now) }
    ensures turns_well { IsTrue (is_well result.1.now) }
    ensures spaced { IsTrue (is_spaced result.0.now) }
    ensures turns_spaced { IsTrue (is_spaced result.1.now) }
    ensures serves { ServesBy own most_steps (call A02) READ (tree result.0.now) READ_LOOP (tree result.1.now) }
{
    (&NODES, &LOOP_NODES)
}
