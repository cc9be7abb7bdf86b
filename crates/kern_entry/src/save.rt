//! From the exception vector to the cause of the entry. k0 and k1 are the kernel's own: a program doesn't find them again.
use crate::area;
use crate::places::{
    BACK, CALL_A, CALL_B, CALL_C, CAUSES, DONE, EXCEPTION, INTERRUPTS, SAVE, SYSCALLS,
};
use kern_layout::ranges::{GATE_A, GATE_B, GATE_BACK, GATE_C, GATE_DONE};
use psx_flow::{Node, Test, op, register};

// Stores a register at its place in the work area. r26 has the upper half of its address.
macro_rules! save {
    ($register:ident, $number:literal) => { op!(SW $register, r26, area::REGISTERS + 4 * $number) };
}

/// At the vector there is room for a jump.
pub const VECTOR_NODES: [Node; 1] = [Node::Jump(SAVE)];

/// Saves r1 to r25, r28 to r31, HI, LO, EPC and SR in the work area. Behind it r8, r10 and r26 are changed.
pub const SAVE_NODES: [Node; 39] = [
    op!(LUI r26, area::AREA),
    save!(r1, 1),
    save!(r2, 2),
    save!(r3, 3),
    save!(r4, 4),
    save!(r5, 5),
    save!(r6, 6),
    save!(r7, 7),
    save!(r8, 8),
    save!(r9, 9),
    save!(r10, 10),
    save!(r11, 11),
    save!(r12, 12),
    save!(r13, 13),
    save!(r14, 14),
    save!(r15, 15),
    save!(r16, 16),
    save!(r17, 17),
    save!(r18, 18),
    save!(r19, 19),
    save!(r20, 20),
    save!(r21, 21),
    save!(r22, 22),
    save!(r23, 23),
    save!(r24, 24),
    save!(r25, 25),
    save!(r28, 28),
    save!(r29, 29),
    save!(r30, 30),
    save!(r31, 31),
    op!(MFC0 r8, r14),
    op!(MFC0 r10, r12),
    op!(SW r8, r26, area::PC),
    op!(MFHI r8),
    op!(SW r8, r26, area::HI),
    op!(MFLO r8),
    op!(SW r8, r26, area::LO),
    op!(SW r10, r26, area::SR),
    Node::Jump(CAUSES),
];

/// Goes on by Cause and EPC. r9, r4, r2 and r31 are the program's.
pub const CAUSES_NODES: [Node; 38] = [
    // The code, bits 2 to 6: 0 is an interrupt, 8 a SYSCALL; bit 31 says that the instruction is in a delay slot.
    op!(MFC0 r8, r13),
    op!(NOP),
    op!(SLL r10, r8, 25),
    op!(SRL r10, r10, 27),
    op!(ADDIU r11, r0, 8),
    Node::If(Test::Differ(register!(r10), register!(r11))),
    Node::If(Test::Same(register!(r10), register!(r0))),
    Node::Jump(INTERRUPTS),
    Node::End,
    Node::Jump(EXCEPTION),
    Node::End,
    Node::If(Test::Negative(register!(r8))),
    Node::Jump(EXCEPTION),
    Node::End,
    // The low 29 bits of EPC, shifted up: the three segments fall together.
    op!(MFC0 r8, r14),
    op!(NOP),
    op!(SLL r8, r8, 3),
    op!(ADDIU r10, r0, 8 * GATE_A.from as u16),
    Node::If(Test::Same(register!(r8), register!(r10))),
    Node::Jump(CALL_A),
    Node::End,
    op!(ADDIU r10, r0, 8 * GATE_B.from as u16),
    Node::If(Test::Same(register!(r8), register!(r10))),
    Node::Jump(CALL_B),
    Node::End,
    op!(ADDIU r10, r0, 8 * GATE_C.from as u16),
    Node::If(Test::Same(register!(r8), register!(r10))),
    Node::Jump(CALL_C),
    Node::End,
    op!(ADDIU r10, r0, 8 * GATE_DONE.from as u16),
    Node::If(Test::Same(register!(r8), register!(r10))),
    Node::Jump(DONE),
    Node::End,
    op!(ADDIU r10, r0, 8 * GATE_BACK.from as u16),
    Node::If(Test::Same(register!(r8), register!(r10))),
    Node::Jump(BACK),
    Node::End,
    Node::Jump(SYSCALLS),
];
