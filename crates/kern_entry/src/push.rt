//! A function of the program is called: a frame keeps the context and the tasks that are left.
ghost use Rattle.std.specs.Prelude.{◌≡◌, IsTrue, IfSome};
ghost use Rattle.psx_flow.specs.Reading.{tree_of};
ghost use Rattle.psx_flow.specs.Well.{is_well};
ghost use Rattle.psx_flow.specs.Spaced.{is_spaced};
ghost use Rattle.kern_stay.specs.Doors.{Makes, CallsBack, Nowhere, most_push_steps};
ghost use Rattle.kern_stay.specs.declared.places.TheConstants.{PUSH};
ghost use Rattle.kern_entry.specs.FramesOwn.{frames_own};
ghost use Rattle.kern_entry.specs.declared.push.TheConstants.{PUSH_NODES};

use crate::places::{COPY, COPY_HALF};
use crate::{area, frames};
use kern_layout::ranges::GATE_BACK;
use kern_stay::places::{DEEP, WAIT};
use psx_flow::{Node, Test, op, register};

// Stores a register at the place that a register has in the work area. r14 has the upper half of its address.
macro_rules! save {
    ($register:ident, $number:literal) => { op!(SW $register, r14, area::REGISTERS + 4 * $number) };
}

/// r16 is the function, r17 its argument, r18 what a stop names. r13 is the address of the place behind the last frame.
/// Three runs of COPY_HALF, each 17 words behind the last one, copy the context and what stands before the elements.
pub const PUSH_NODES: [Node; 66] = [
    op!(LUI r14, frames::DATA),
    op!(LW r12, r14, frames::COUNT),
    op!(ADDIU r8, r0, frames::MOST),
    Node::If(Test::Same(register!(r12), register!(r8))),
    op!(OR r31, r0, r18),
    Node::Jump(DEEP),
    Node::End,
    op!(SLL r10, r12, 8),
    op!(SLL r11, r12, 7),
    op!(ADDU r10, r10, r11),
    op!(ADDU r10, r10, r14),
    op!(ADDIU r13, r10, frames::FRAMES),
    op!(ADDIU r12, r12, 1),
    op!(SW r12, r14, frames::COUNT),
    op!(ADDIU r8, r14, frames::AREA_CONTEXT),
    op!(ADDIU r9, r13, frames::CONTEXT),
    Node::Call(COPY_HALF),
    Node::Call(COPY_HALF),
    Node::Call(COPY_HALF),
    op!(LW r10, r14, frames::AREA_ELEMENT_COUNT),
    op!(ADDIU r8, r14, frames::AREA_ELEMENTS),
    Node::If(Test::Differ(register!(r10), register!(r0))),
    op!(SLL r10, r10, 2),
    op!(ADDU r10, r10, r8),
    op!(ADDIU r9, r13, frames::ELEMENTS),
    Node::Call(COPY),
    Node::End,
    // The function's context. gp stays.
    op!(LW r8, r14, area::REGISTERS + 4 * 29),
    save!(r0, 1),
    save!(r0, 2),
    save!(r0, 3),
    save!(r17, 4),
    save!(r0, 5),
    save!(r0, 6),
    save!(r0, 7),
    save!(r0, 8),
    save!(r0, 9),
    save!(r0, 10),
    save!(r0, 11),
    save!(r0, 12),
    save!(r0, 13),
    save!(r0, 14),
    save!(r0, 15),
    save!(r0, 16),
    save!(r0, 17),
    save!(r0, 18),
    save!(r0, 19),
    save!(r0, 20),
    save!(r0, 21),
    save!(r0, 22),
    save!(r0, 23),
    save!(r0, 24),
    save!(r0, 25),
    // 32 bytes below the context's stack, at a multiple of 8.
    op!(ADDIU r8, r8, 0xFFE0),
    op!(SRL r8, r8, 3),
    op!(SLL r8, r8, 3),
    save!(r8, 29),
    save!(r0, 30),
    op!(ADDIU r9, r0, GATE_BACK.from as u16),
    save!(r9, 31),
    op!(SW r16, r14, area::PC),
    op!(SW r0, r14, area::HI),
    op!(SW r0, r14, area::LO),
    // Interrupts are off.
    op!(ADDIU r10, r0, 0x0400),
    op!(SW r10, r14, area::SR),
    Node::Jump(WAIT),
];

/// The listing at PUSH, where WORK's listing arrives to call a function.
/// It ends at WAIT, with the function's context in the work area and the frame behind the others; or at DEEP with r18 in r31, where there are 8 frames. r8 to r15 and r31 are changed.
pub fn push() -> &'static [Node]
    ensures listing { result.now ≡ PUSH_NODES }
    ensures well { IsTrue (is_well result.now) }
    ensures spaced { IsTrue (is_spaced result.now) }
    ensures makes { IfSome (tree_of result.now) (λ tree. Makes frames_own most_push_steps CallsBack Nowhere PUSH tree) }
{
    &PUSH_NODES
}
