//! The SYSCALLs outside the gates, by r4.
use crate::area;
use crate::places::{BEHIND, DELIVER};
use psx_flow::{Node, Test, op, register};

/// 0 does nothing. 1 turns interrupts off, bit 2 of the saved SR, and answers whether they were on. 2 turns them on. 3 isn't served, and another delivers an event.
pub const SYSCALLS_NODES: [Node; 31] = [
    Node::If(Test::Same(register!(r4), register!(r0))),
    Node::Jump(BEHIND),
    Node::End,
    op!(LUI r26, area::AREA),
    op!(ADDIU r8, r0, 1),
    Node::If(Test::Same(register!(r4), register!(r8))),
    op!(LW r8, r26, area::SR),
    op!(ADDIU r10, r0, 0x0400),
    op!(SRL r8, r8, 2),
    op!(ANDI r8, r8, 1),
    op!(SW r8, r26, area::REGISTERS + 4 * 2),
    op!(SW r10, r26, area::SR),
    Node::Jump(BEHIND),
    Node::End,
    op!(ADDIU r8, r0, 2),
    Node::If(Test::Same(register!(r4), register!(r8))),
    op!(ADDIU r10, r0, 0x0404),
    op!(SW r10, r26, area::SR),
    Node::Jump(BEHIND),
    Node::End,
    op!(ADDIU r8, r0, 3),
    Node::If(Test::Differ(register!(r4), register!(r8))),
    Node::Jump(DELIVER),
    Node::End,
    op!(LUI r26, area::PORTS),
    op!(MFC0 r10, r14),
    op!(ADDIU r8, r0, area::CODE_UNSERVED),
    op!(SW r8, r26, area::PORT_A),
    op!(SW r4, r26, area::PORT_B),
    op!(SW r10, r26, area::PORT_C),
    op!(SW r8, r26, area::PORT_HALT),
];
