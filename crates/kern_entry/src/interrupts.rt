//! An interrupt: the elements of the chains and the lines that are due become tasks.
ghost use Rattle.std.specs.Prelude.{◌≡◌, IsTrue, IfSome};
ghost use Rattle.psx_flow.specs.Reading.{tree_of};
ghost use Rattle.psx_flow.specs.Well.{is_well};
ghost use Rattle.psx_flow.specs.Spaced.{is_spaced};
ghost use Rattle.abs_kernel.specs.Interrupt.{handles_interrupt};
ghost use Rattle.kern_stay.specs.Doors.{ServesWithin, AtWorkBegun, most_interrupt_steps};
ghost use Rattle.kern_entry.specs.FramesOwn.{frames_own};
ghost use Rattle.kern_entry.specs.declared.places.TheConstants.{INTERRUPTS};
ghost use Rattle.kern_entry.specs.declared.interrupts.TheConstants.{INTERRUPTS_NODES};

use crate::places::COPY;
use crate::{area, chains, tasks};
use kern_stay::places::WORK;
use psx_flow::{Node, Test, op, register};

/// r16 has the bits of the lines that are pending and enabled. r14 is the upper half of the data's addresses, r9 where the next element goes to, and r13 where the next line goes to, less the place of the first one.
/// The chains and the lines are taken from the last one on, since the first task is to stand last.
pub const INTERRUPTS_NODES: [Node; 69] = [
    op!(LUI r15, area::PORTS),
    op!(LUI r14, tasks::DATA),
    op!(LW r16, r15, tasks::LINES_PORT),
    op!(ADDIU r9, r14, tasks::ELEMENTS),
    op!(LW r17, r15, chains::MASK_PORT),
    op!(OR r2, r0, r0),
    op!(AND r16, r16, r17),
    op!(LW r10, r14, chains::COUNT + 3 * chains::SIZE),
    op!(ADDIU r8, r14, chains::ELEMENTS + 3 * chains::SIZE),
    Node::If(Test::Differ(register!(r10), register!(r0))),
    op!(SLL r10, r10, 2),
    op!(ADDU r10, r8, r10),
    Node::Call(COPY),
    Node::End,
    op!(LW r10, r14, chains::COUNT + 2 * chains::SIZE),
    op!(ADDIU r8, r14, chains::ELEMENTS + 2 * chains::SIZE),
    Node::If(Test::Differ(register!(r10), register!(r0))),
    op!(SLL r10, r10, 2),
    op!(ADDU r10, r8, r10),
    Node::Call(COPY),
    Node::End,
    op!(LW r10, r14, chains::COUNT + chains::SIZE),
    op!(ADDIU r8, r14, chains::ELEMENTS + chains::SIZE),
    Node::If(Test::Differ(register!(r10), register!(r0))),
    op!(SLL r10, r10, 2),
    op!(ADDU r10, r8, r10),
    Node::Call(COPY),
    Node::End,
    op!(LW r10, r14, chains::COUNT),
    op!(ADDIU r8, r14, chains::ELEMENTS),
    Node::If(Test::Differ(register!(r10), register!(r0))),
    op!(SLL r10, r10, 2),
    op!(ADDU r10, r8, r10),
    Node::Call(COPY),
    Node::End,
    op!(LW r31, r14, area::PC),
    op!(ADDIU r8, r14, tasks::ELEMENTS),
    op!(SUBU r9, r9, r8),
    op!(SRL r9, r9, 2),
    op!(SW r9, r14, tasks::ELEMENT_COUNT),
    op!(OR r13, r0, r14),
    op!(ANDI r11, r16, chains::COUNTER_2),
    Node::If(Test::Differ(register!(r11), register!(r0))),
    op!(ADDIU r11, r0, 6),
    op!(SW r11, r13, tasks::LINES),
    op!(ADDIU r13, r13, 4),
    Node::End,
    op!(ANDI r11, r16, chains::COUNTER_1),
    Node::If(Test::Differ(register!(r11), register!(r0))),
    op!(ADDIU r11, r0, 5),
    op!(SW r11, r13, tasks::LINES),
    op!(ADDIU r13, r13, 4),
    Node::End,
    op!(ANDI r11, r16, chains::COUNTER_0),
    Node::If(Test::Differ(register!(r11), register!(r0))),
    op!(ADDIU r11, r0, 4),
    op!(SW r11, r13, tasks::LINES),
    op!(ADDIU r13, r13, 4),
    Node::End,
    op!(ANDI r11, r16, chains::BLANK),
    Node::If(Test::Differ(register!(r11), register!(r0))),
    op!(SW r0, r13, tasks::LINES),
    op!(ADDIU r13, r13, 4),
    Node::End,
    op!(SUBU r13, r13, r14),
    op!(SRL r13, r13, 2),
    op!(SW r13, r14, tasks::LINE_COUNT),
    op!(SW r0, r14, tasks::KIND),
    Node::Jump(WORK),
];

/// The listing at INTERRUPTS, where an interrupt arrives with its context in the work area: it reads I_STAT, then I_MASK.
/// It ends at WORK, with the chains' elements and those of the lines 0, 4, 5 and 6 that both words have as the tasks, 0 in r2 and the context's address in r31. r8 to r17 are changed too.
pub fn interrupts() -> &'static [Node]
    ensures listing { result.now ≡ INTERRUPTS_NODES }
    ensures well { IsTrue (is_well result.now) }
    ensures spaced { IsTrue (is_spaced result.now) }
    ensures serves { IfSome (tree_of result.now) (λ tree. ServesWithin frames_own most_interrupt_steps AtWorkBegun handles_interrupt INTERRUPTS tree) }
{
    &INTERRUPTS_NODES
}
