//! The functions of a chain's elements, up to the first that is to be called.
ghost use Rattle.std.specs.Prelude.{◌≡◌, IsTrue};
ghost use Rattle.psx_flow.specs.Well.{is_well};
ghost use Rattle.psx_flow.specs.Spaced.{is_spaced};
ghost use Rattle.kern_entry.specs.declared.elements.TheConstants.{ELEMENTS_NODES};

use crate::tasks;
use psx_flow::{Node, Test, op, register};

/// r2 is the answer of the function that has returned, r8 the kind of the task under way, and r14 the upper half of the data's addresses. r10 is how many elements are left. r8 and r11 are an element.
pub const ELEMENTS_NODES: [Node; 33] = [
    op!(OR r17, r0, r0),
    Node::If(Test::Differ(register!(r8), register!(r0))),
    op!(SW r0, r14, tasks::KIND),
    // After an answer of 0 the second function is passed over.
    Node::If(Test::Differ(register!(r2), register!(r0))),
    op!(LW r11, r14, tasks::FIRST),
    op!(OR r17, r0, r2),
    op!(LW r16, r11, tasks::ELEMENT_SECOND),
    op!(NOP),
    Node::If(Test::Differ(register!(r16), register!(r0))),
    Node::JumpTo(register!(r31)),
    Node::End,
    op!(OR r17, r0, r0),
    Node::End,
    Node::End,
    op!(LW r10, r14, tasks::ELEMENT_COUNT),
    op!(NOP),
    Node::While(Test::Differ(register!(r10), register!(r0))),
    op!(ADDIU r10, r10, 0xFFFF),
    op!(SLL r11, r10, 2),
    op!(ADDU r11, r11, r14),
    op!(LW r8, r11, tasks::ELEMENTS),
    op!(SW r10, r14, tasks::ELEMENT_COUNT),
    op!(LW r16, r8, tasks::ELEMENT_FIRST),
    op!(NOP),
    Node::If(Test::Differ(register!(r16), register!(r0))),
    op!(ADDIU r11, r0, tasks::KIND_SECOND),
    op!(SW r8, r14, tasks::FIRST),
    op!(SW r11, r14, tasks::KIND),
    Node::JumpTo(register!(r31)),
    Node::End,
    Node::End,
    op!(OR r16, r0, r0),
    Node::JumpTo(register!(r31)),
];

/// The listing of the work area's elements, with a second function under way or no task: it goes over them up to the first function that isn't 0. It comes back to r31 with that function in r16 and its argument in r17, and the work area has the tasks that will be left; or with 0 in r16, and no task under way and no element is left.
/// r8, r10 and r11 are changed too. What it does is proved where WORK calls it (`proofs/ElementsTaken.antt`).
pub fn elements() -> &'static [Node]
    ensures listing { result.now ≡ ELEMENTS_NODES }
    ensures well { IsTrue (is_well result.now) }
    ensures spaced { IsTrue (is_spaced result.now) }
{
    &ELEMENTS_NODES
}
