//! The tasks that come before a context is taken up.
ghost use Rattle.std.specs.Prelude.{◌≡◌, IsTrue, IfSome};
ghost use Rattle.psx_flow.specs.Reading.{tree_of};
ghost use Rattle.psx_flow.specs.Well.{is_well};
ghost use Rattle.psx_flow.specs.Spaced.{is_spaced};
ghost use Rattle.kern_stay.specs.declared.places.TheConstants.{WORK};
ghost use Rattle.kern_stay.specs.Doors.{Makes, Works, AtCall, most_work_steps};
ghost use Rattle.kern_entry.specs.WorkOwn.{work_own};
ghost use Rattle.kern_entry.specs.declared.work.TheConstants.{WORK_NODES};

use crate::places::{ELEMENTS, PUSH, SCAN, TAKE_UP};
use crate::{area, tasks};
use psx_flow::{Node, Test, op, register};

/// r2 is the answer of the function that has returned, and r31 what a stop names, which r18 keeps. r14 is the upper half of the data's addresses, r16 a function and r17 its argument. r10 is how many lines are left, and r8 a line.
/// A scan has its class in r4, its spec in r5 and the number of its first event in r13. Where none is under way this is the number of events, so that none is looked at.
pub const WORK_NODES: [Node; 45] = [
    op!(LUI r14, tasks::DATA),
    op!(LW r8, r14, tasks::KIND),
    op!(OR r18, r0, r31),
    op!(LW r13, r14, tasks::COUNT),
    op!(ADDIU r11, r0, tasks::KIND_SCAN),
    Node::If(Test::Same(register!(r8), register!(r11))),
    op!(LW r4, r14, tasks::FIRST),
    op!(LW r5, r14, tasks::SPEC),
    op!(LW r13, r14, tasks::EVENT),
    op!(SW r0, r14, tasks::KIND),
    Node::Other,
    Node::Call(ELEMENTS),
    Node::If(Test::Differ(register!(r16), register!(r0))),
    Node::Jump(PUSH),
    Node::End,
    Node::End,
    op!(LW r10, r14, tasks::LINE_COUNT),
    op!(OR r17, r0, r0),
    Node::While(Test::Same(register!(r0), register!(r0))),
    Node::Call(SCAN),
    Node::If(Test::Differ(register!(r16), register!(r0))),
    Node::Jump(PUSH),
    Node::End,
    Node::If(Test::Same(register!(r10), register!(r0))),
    Node::Jump(TAKE_UP),
    Node::End,
    op!(ADDIU r10, r10, 0xFFFF),
    op!(SLL r11, r10, 2),
    op!(ADDU r11, r11, r14),
    op!(LW r8, r11, tasks::LINES),
    op!(SW r10, r14, tasks::LINE_COUNT),
    op!(ADDIU r11, r0, 1),
    // All ones but the line's bit take it back.
    op!(SLLV r11, r11, r8),
    op!(NOR r11, r0, r11),
    op!(LUI r15, area::PORTS),
    op!(SW r11, r15, tasks::LINES_PORT),
    // The class is F2000000h and the line less 4, and for line 0 as for a line 7.
    op!(LUI r4, tasks::LINE_CLASSES),
    Node::If(Test::Same(register!(r8), register!(r0))),
    op!(ADDIU r8, r0, 7),
    Node::End,
    op!(ADDU r4, r4, r8),
    op!(ADDIU r4, r4, 0xFFFC),
    op!(ADDIU r5, r0, tasks::LINE_SPEC),
    op!(OR r13, r0, r0),
    Node::End,
];

/// The listing of WORK, where a stay arrives with tasks to do: it does those of the work area, up to the first function that is to be called, with which it ends at PUSH, or to where no task is left, and it ends at TAKE_UP.
/// Of the registers only r16 to r18 are fixed then, and at PUSH alone.
pub fn work() -> &'static [Node]
    ensures listing { result.now ≡ WORK_NODES }
    ensures well { IsTrue (is_well result.now) }
    ensures spaced { IsTrue (is_spaced result.now) }
    ensures makes { IfSome (tree_of result.now) (λ tree. Makes work_own most_work_steps Works AtCall WORK tree) }
{
    &WORK_NODES
}
