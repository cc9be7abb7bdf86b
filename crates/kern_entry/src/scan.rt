//! The events of a class and spec are delivered, up to the first whose function is to be called.
ghost use Rattle.std.specs.Prelude.{◌≡◌, IsTrue};
ghost use Rattle.psx_flow.specs.Well.{is_well};
ghost use Rattle.psx_flow.specs.Spaced.{is_spaced};
ghost use Rattle.kern_entry.specs.declared.scan.TheConstants.{SCAN_NODES};

use crate::tasks;
use psx_flow::{Node, Test, op, register};

/// r4 is the class, r5 the spec, r13 the number of the first event, and r14 the upper half of the data's addresses. r15 is an event's address, r9 that behind the last one, and r20 the first one's.
/// r12 is the status of a busy event and the mode of one that becomes ready, r6 the status that it gets, and r7 the mode of one whose function is called. r3, r8 and r11 are fields of an event.
pub const SCAN_NODES: [Node; 49] = [
    op!(LW r9, r14, tasks::COUNT),
    op!(ADDIU r20, r14, tasks::BLOCKS),
    op!(SLL r11, r9, 5),
    op!(SLL r9, r9, 2),
    op!(SUBU r9, r11, r9),
    op!(ADDU r9, r9, r20),
    op!(SLL r11, r13, 5),
    op!(SLL r15, r13, 2),
    op!(SUBU r15, r11, r15),
    op!(ADDU r15, r15, r20),
    op!(ADDIU r6, r0, tasks::READY),
    op!(ADDIU r7, r0, tasks::CALLING),
    op!(ADDIU r12, r0, tasks::BUSY),
    // The events before r15 are as they are to be, and none of them is to be called.
    Node::While(Test::Differ(register!(r15), register!(r9))),
    op!(LW r11, r15, tasks::CLASS),
    op!(ADDIU r15, r15, tasks::EVENT_SIZE),
    Node::If(Test::Same(register!(r11), register!(r4))),
    op!(LW r11, r15, tasks::BACK_TO_STATUS),
    op!(LW r8, r15, tasks::BACK_TO_SPEC),
    op!(LW r3, r15, tasks::BACK_TO_MODE),
    op!(NOP),
    Node::If(Test::Same(register!(r11), register!(r12))),
    Node::If(Test::Same(register!(r8), register!(r5))),
    Node::If(Test::Differ(register!(r3), register!(r7))),
    Node::If(Test::Same(register!(r3), register!(r12))),
    op!(SW r6, r15, tasks::BACK_TO_STATUS),
    Node::End,
    Node::Other,
    op!(LW r16, r15, tasks::BACK_TO_FUNCTION),
    op!(NOP),
    Node::If(Test::Differ(register!(r16), register!(r0))),
    // From the number of the next event on the scan is to go on: the bytes before it by those of a block.
    op!(SUBU r8, r15, r20),
    op!(ADDIU r11, r0, tasks::EVENT_SIZE),
    op!(DIVU r8, r11),
    op!(MFLO r8),
    op!(SW r4, r14, tasks::FIRST),
    op!(SW r5, r14, tasks::SPEC),
    op!(SW r8, r14, tasks::EVENT),
    op!(ADDIU r11, r0, tasks::KIND_SCAN),
    op!(SW r11, r14, tasks::KIND),
    Node::JumpTo(register!(r31)),
    Node::End,
    Node::End,
    Node::End,
    Node::End,
    Node::End,
    Node::End,
    op!(OR r16, r0, r0),
    Node::JumpTo(register!(r31)),
];

/// The listing of a scan: of the events from number r13 on, each that is busy with class r4 and spec r5 becomes ready where its mode is 2000h. It comes back to r31, with 0 in r16 where all were looked at.
/// At the first such one of mode 1000h with a function it comes back with the function in r16, and the scan from the next event on is the work area's task under way. r3, r6 to r9, r11, r12, r15, r20, HI and LO are changed too. What it does is proved where WORK calls it (`proofs/Scanning.antt`).
pub fn scan() -> &'static [Node]
    ensures listing { result.now ≡ SCAN_NODES }
    ensures well { IsTrue (is_well result.now) }
    ensures spaced { IsTrue (is_spaced result.now) }
{
    &SCAN_NODES
}
