//! A line of the console is waited for.
ghost use Rattle.std.specs.Prelude.{◌≡◌, IsTrue};
ghost use Rattle.psx_flow.specs.Well.{is_well};
ghost use Rattle.psx_flow.specs.Spaced.{is_spaced};
ghost use Rattle.abs_kernel.specs.declared.calls.CallId.TheVariants.{A3D};
ghost use Rattle.abs_kernel.specs.Calls.{call};
ghost use Rattle.kern_stay.specs.Shared.{tree};
ghost use Rattle.kern_stay.specs.Doors.{most_steps};
ghost use Rattle.kern_stay.specs.Loops.{ServesBy};
ghost use Rattle.kern_file.specs.Own.{own};
ghost use Rattle.kern_file.specs.declared.a3d_gets.TheConstants.{NODES, LOOP_NODES};
ghost use Rattle.kern_file.specs.declared.places.TheConstants.{GETS, GETS_LOOP};

use crate::places;
use crate::places::{GETS_LOOP, ROOM};
use kern_layout::places::LINE_LENGTH;
use kern_layout::ranges::LINE;
use kern_stay::places::{BAD_POINTER, LEAVE, WAIT};
use psx_flow::{Node, Test, op, register};

/// r4 is the place. r26 is for the console's ports, r27 for the kernel's data, r8 the status.
/// r12 is the byte that came, r13 how many stand in the line, and r14 the address behind them.
pub const NODES: [Node; 17] = [
    Node::If(Test::Same(register!(r4), register!(r0))),
    op!(OR r2, r0, r0),
    Node::Jump(LEAVE),
    Node::End,
    op!(LUI r26, places::PORTS),
    op!(LUI r27, places::DATA),
    op!(LW r13, r27, LINE_LENGTH as u16),
    op!(LW r8, r26, places::PORT_STATUS),
    op!(ADDIU r14, r27, LINE.from as u16),
    Node::If(Test::Same(register!(r8), register!(r0))),
    Node::Jump(WAIT),
    Node::End,
    op!(LW r12, r26, places::PORT_CONSOLE),
    op!(ADDU r14, r14, r13),
    op!(SLL r12, r12, 24),
    op!(SRL r12, r12, 24),
    Node::Jump(GETS_LOOP),
];

/// A turn takes up the byte that came: the line has it and the next one is taken, or the line has ended.
pub const LOOP_NODES: [Node; 45] = [
    op!(SB r12, 0(r14)),
    op!(ADDIU r15, r0, 0x0A),
    Node::If(Test::Differ(register!(r12), register!(r15))),
    op!(ADDIU r15, r0, 0x0D),
    Node::If(Test::Differ(register!(r12), register!(r15))),
    op!(ADDIU r13, r13, 1),
    op!(ADDIU r14, r14, 1),
    op!(ADDIU r15, r0, 255),
    Node::If(Test::Differ(register!(r13), register!(r15))),
    op!(SW r13, r27, LINE_LENGTH as u16),
    op!(LW r8, r26, places::PORT_STATUS),
    op!(NOP),
    Node::If(Test::Same(register!(r8), register!(r0))),
    Node::Jump(WAIT),
    Node::End,
    op!(LW r12, r26, places::PORT_CONSOLE),
    op!(NOP),
    op!(SLL r12, r12, 24),
    op!(SRL r12, r12, 24),
    Node::Jump(GETS_LOOP),
    Node::End,
    Node::End,
    Node::End,
    // The line ends before r14. A zero stands behind it, and the buffer is empty.
    op!(SB r0, 0(r14)),
    op!(SW r0, r27, LINE_LENGTH as u16),
    op!(ADDIU r16, r27, LINE.from as u16),
    op!(ADDIU r13, r13, 1),
    op!(OR r8, r0, r4),
    Node::Call(ROOM),
    op!(SLTU r10, r9, r13),
    Node::If(Test::Same(register!(r10), register!(r0))),
    op!(OR r9, r0, r13),
    Node::End,
    op!(ADDU r11, r8, r9),
    // The bytes before r16 are written, and those up to r11 are user memory.
    Node::While(Test::Differ(register!(r8), register!(r11))),
    op!(LBU r12, 0(r16)),
    op!(ADDIU r16, r16, 1),
    op!(SB r12, 0(r8)),
    op!(ADDIU r8, r8, 1),
    Node::End,
    Node::If(Test::Differ(register!(r10), register!(r0))),
    Node::Jump(BAD_POINTER),
    Node::End,
    op!(OR r2, r0, r4),
    Node::Jump(LEAVE),
];

/// The listing of A3D and B3E, gets(p), which takes the bytes of a line and writes them from p on with a zero behind; and that of its loop, which turns once a byte.
/// The entries of both tables lead to the first with p in r4.
/// They end at LEAVE with p in r2, or with 0 at once where p is 0; or at WAIT, where no byte is due and the line hasn't ended, with the bytes so far in the kernel's line;
/// or at BAD_POINTER with the first address in r8 that isn't user memory, and the bytes before it written.
/// r8 to r16, r26, r27 and r31 are changed too.
pub fn gets() -> (&'static [Node], &'static [Node])
    ensures listing { result.0.now ≡ NODES }
    ensures turns { result.1.now ≡ LOOP_NODES }
    ensures well { IsTrue (is_well result.0.now) }
    ensures turns_well { IsTrue (is_well result.1.now) }
    ensures spaced { IsTrue (is_spaced result.0.now) }
    ensures turns_spaced { IsTrue (is_spaced result.1.now) }
    ensures serves { ServesBy own most_steps (call A3D) GETS (tree result.0.now) GETS_LOOP (tree result.1.now) }
{
    (&NODES, &LOOP_NODES)
}
