//! A file is opened.
ghost use Rattle.std.specs.Prelude.{◌≡◌, IsTrue, IfSome};
ghost use Rattle.psx_flow.specs.Reading.{tree_of};
ghost use Rattle.psx_flow.specs.Well.{is_well};
ghost use Rattle.psx_flow.specs.Spaced.{is_spaced};
ghost use Rattle.abs_kernel.specs.declared.calls.CallId.TheVariants.{A00};
ghost use Rattle.abs_kernel.specs.Calls.{call};
ghost use Rattle.kern_stay.specs.Doors.{Serves, most_steps};
ghost use Rattle.kern_file.specs.Own.{own};
ghost use Rattle.kern_file.specs.declared.a00_open.TheConstants.{NODES};
ghost use Rattle.kern_file.specs.declared.places.TheConstants.{OPEN};

use crate::places::ROOM;
use crate::{errors, places};
use kern_layout::places::{FILE_BLOCKS, FILE_SIZE};
use kern_stay::places::{BAD_POINTER, LEAVE};
use psx_flow::{Node, Test, op, register};

/// The console's name, `tty00:` and a zero, two bytes each, the first in the low byte.
pub const NAME: [u16; 3] = [0x7474, 0x3079, 0x3A30];

/// r4 is the name and r5 the mode. r3 is the error of a refusal, and r14 is for the kernel's data.
/// First r8 is the address of the byte that comes, r11 where user memory ends, r10 how many bytes of the console's name come,
/// and r6 and r7 are these bytes, the first in the low byte. Then r2 is a file's number, r8 the address of the next one's mode, and r11 where the files end.
pub const NODES: [Node; 53] = [
    op!(LUI r14, places::DATA),
    op!(ADDIU r2, r0, 0xFFFF),
    op!(ADDIU r3, r0, errors::BAD_MODE),
    op!(ADDIU r8, r5, 0xFFFF),
    op!(SLTIU r8, r8, 3),
    Node::If(Test::Same(register!(r8), register!(r0))),
    op!(SW r3, r14, places::LAST_ERROR),
    Node::Jump(LEAVE),
    Node::End,
    op!(ADDIU r3, r0, errors::NO_DEVICE),
    Node::If(Test::Same(register!(r4), register!(r0))),
    op!(SW r3, r14, places::LAST_ERROR),
    Node::Jump(LEAVE),
    Node::End,
    op!(OR r8, r0, r4),
    Node::Call(ROOM),
    op!(ADDU r11, r8, r9),
    op!(LUI r6, NAME[1]),
    op!(ADDIU r6, r6, NAME[0]),
    op!(ADDIU r7, r0, NAME[2]),
    op!(ADDIU r10, r0, 7),
    // The bytes before r8 are those of the name, and those up to r11 are user memory.
    Node::While(Test::Differ(register!(r10), register!(r0))),
    Node::If(Test::Same(register!(r8), register!(r11))),
    Node::Jump(BAD_POINTER),
    Node::End,
    op!(LBU r12, 0(r8)),
    op!(ADDIU r8, r8, 1),
    op!(ANDI r13, r6, 0xFF),
    Node::If(Test::Differ(register!(r12), register!(r13))),
    op!(SW r3, r14, places::LAST_ERROR),
    Node::Jump(LEAVE),
    Node::End,
    op!(SRL r6, r6, 8),
    op!(SLL r13, r7, 24),
    op!(ADDU r6, r6, r13),
    op!(SRL r7, r7, 8),
    op!(ADDIU r10, r10, 0xFFFF),
    Node::End,
    op!(ADDIU r8, r14, places::MODES),
    op!(ADDIU r11, r8, (FILE_BLOCKS * FILE_SIZE) as u16),
    // The files before r8 are open, and r2 is the last one's number.
    Node::While(Test::Differ(register!(r8), register!(r11))),
    op!(LW r12, 0(r8)),
    op!(ADDIU r2, r2, 1),
    Node::If(Test::Same(register!(r12), register!(r0))),
    op!(SW r5, 0(r8)),
    Node::Jump(LEAVE),
    Node::End,
    op!(ADDIU r8, r8, FILE_SIZE as u16),
    Node::End,
    op!(ADDIU r3, r0, errors::NO_FILE_LEFT),
    op!(SW r3, r14, places::LAST_ERROR),
    op!(ADDIU r2, r0, 0xFFFF),
    Node::Jump(LEAVE),
];

/// The listing of A00 and B32, open(name, mode), which opens the lowest file that isn't open where the mode is 1 to 3 and the name `tty00:`.
/// The entries of both tables lead to it with the name in r4 and the mode in r5.
/// It ends at LEAVE with the file's number in r2; or with FFFFFFFFh, and the error BAD_MODE, NO_DEVICE or NO_FILE_LEFT kept, in this order;
/// or at BAD_POINTER with the first address in r8 that isn't user memory.
/// r3, r6 to r14 and r31 are changed too.
pub fn open_file() -> &'static [Node]
    ensures listing { result.now ≡ NODES }
    ensures well { IsTrue (is_well result.now) }
    ensures spaced { IsTrue (is_spaced result.now) }
    ensures serves { IfSome (tree_of result.now) (λ tree. Serves own most_steps (call A00) OPEN tree) }
{
    &NODES
}
