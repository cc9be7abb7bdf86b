//! From a routine's end back to the program.
use crate::area;
use crate::places::RESUME;
use kern_layout::places::{SAVED_HI, SAVED_LO, SAVED_PC, SAVED_REGISTERS, SAVED_SR};
use psx_flow::{Node, op, register};

// Loads a register from its place in the block at r26.
macro_rules! load {
    ($register:ident, $number:literal) => { op!(LW $register, r26, SAVED_REGISTERS as u16 + 4 * $number) };
}

/// The answer in r2 is the program's, which goes on at its r31.
pub const LEAVE_NODES: [Node; 5] = [
    op!(LUI r26, area::AREA),
    op!(LW r8, r26, area::REGISTERS + 4 * 31),
    op!(SW r2, r26, area::REGISTERS + 4 * 2),
    op!(SW r8, r26, area::PC),
    Node::Jump(RESUME),
];

/// The program goes on behind its SYSCALL.
pub const BEHIND_NODES: [Node; 6] = [
    op!(LUI r26, area::AREA),
    op!(LW r8, r26, area::PC),
    op!(NOP),
    op!(ADDIU r8, r8, 4),
    op!(SW r8, r26, area::PC),
    Node::Jump(RESUME),
];

/// Takes up the context in the work area: all registers, HI, LO and SR, k0 the address at which it goes on and k1 0. The jump to k0 follows it, with RFE in its slot.
pub const RESUME_NODES: [Node; 39] = [
    op!(LUI r26, area::AREA),
    op!(ADDIU r26, r26, area::AREA_LOW),
    op!(LW r27, r26, SAVED_SR as u16),
    op!(LW r1, r26, SAVED_HI as u16),
    op!(MTC0 r27, r12),
    op!(LW r27, r26, SAVED_LO as u16),
    op!(MTHI r1),
    op!(MTLO r27),
    load!(r1, 1),
    load!(r2, 2),
    load!(r3, 3),
    load!(r4, 4),
    load!(r5, 5),
    load!(r6, 6),
    load!(r7, 7),
    load!(r8, 8),
    load!(r9, 9),
    load!(r10, 10),
    load!(r11, 11),
    load!(r12, 12),
    load!(r13, 13),
    load!(r14, 14),
    load!(r15, 15),
    load!(r16, 16),
    load!(r17, 17),
    load!(r18, 18),
    load!(r19, 19),
    load!(r20, 20),
    load!(r21, 21),
    load!(r22, 22),
    load!(r23, 23),
    load!(r24, 24),
    load!(r25, 25),
    load!(r28, 28),
    load!(r29, 29),
    load!(r30, 30),
    load!(r31, 31),
    op!(LW r26, r26, SAVED_PC as u16),
    op!(OR r27, r0, r0),
];

/// Where the jump to k0 stands, with RFE in its slot: right behind the listing of RESUME.
pub const RETURN: u32 = RESUME + 4 * RESUME_NODES.len() as u32;
