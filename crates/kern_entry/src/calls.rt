//! The calls: from a gate to the routine that the table has for the number, which is the whole of r9.
use crate::area;
use crate::places::{CACHED, UNSERVED};
use kern_layout::ranges::{TABLE_A, TABLE_B, TABLE_C};
use psx_flow::{Node, Test, op, register};

// A call of a table, which a stop knows by a number. r10 is that number.
macro_rules! call {
    ($range:expr, $table:literal) => {
        [
            op!(ADDIU r10, r0, $table),
            op!(SLTIU r8, r9, (($range.to - $range.from) / 4) as u16),
            Node::If(Test::Same(register!(r8), register!(r0))),
            Node::Jump(UNSERVED),
            Node::End,
            op!(SLL r8, r9, 2),
            op!(LUI r11, (CACHED / 0x1_0000) as u16),
            op!(ADDU r8, r8, r11),
            op!(LW r8, r8, $range.from as u16),
            op!(NOP),
            Node::If(Test::Same(register!(r8), register!(r0))),
            Node::Jump(UNSERVED),
            Node::End,
            Node::JumpTo(register!(r8)),
        ]
    };
}

/// A call by the gate A0h.
pub const CALL_A_NODES: [Node; 14] = call!(TABLE_A, 0);

/// A call by the gate B0h.
pub const CALL_B_NODES: [Node; 14] = call!(TABLE_B, 1);

/// A call by the gate C0h.
pub const CALL_C_NODES: [Node; 14] = call!(TABLE_C, 2);

/// exit(code): the program ends with the code in r4.
pub const EXIT_NODES: [Node; 4] = [
    op!(LUI r26, area::PORTS),
    op!(SW r4, r26, area::PORT_A),
    op!(ADDIU r8, r0, area::CODE_EXIT),
    op!(SW r8, r26, area::PORT_HALT),
];
