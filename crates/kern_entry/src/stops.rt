//! The stops. The last store of each ends the run.
use crate::area;
use crate::places::EXIT;
use psx_flow::{Node, op, register};

/// A call that isn't served: r10 is the table's number.
pub const UNSERVED_NODES: [Node; 6] = [
    op!(LUI r26, area::PORTS),
    op!(SW r10, r26, area::PORT_A),
    op!(SW r9, r26, area::PORT_B),
    op!(SW r31, r26, area::PORT_C),
    op!(ADDIU r8, r0, area::CODE_UNSERVED),
    op!(SW r8, r26, area::PORT_HALT),
];

/// An exception with its code, bits 2 to 6 of Cause, and its address.
pub const EXCEPTION_NODES: [Node; 10] = [
    op!(LUI r26, area::PORTS),
    op!(MFC0 r8, r13),
    op!(NOP),
    op!(SLL r8, r8, 25),
    op!(SRL r8, r8, 27),
    op!(SW r8, r26, area::PORT_A),
    op!(MFC0 r8, r14),
    op!(ADDIU r10, r0, area::CODE_EXCEPTION),
    op!(SW r8, r26, area::PORT_B),
    op!(SW r10, r26, area::PORT_HALT),
];

/// The program's return, with its answer as the code.
pub const DONE_NODES: [Node; 2] = [op!(OR r4, r0, r2), Node::Jump(EXIT)];

// A stop that names what r8 has, and the caller's r31.
macro_rules! stop {
    ($code:expr) => {
        [
            op!(LUI r26, area::AREA),
            op!(LW r9, r26, area::REGISTERS + 4 * 31),
            op!(LUI r26, area::PORTS),
            op!(SW r8, r26, area::PORT_A),
            op!(SW r9, r26, area::PORT_B),
            op!(ADDIU r8, r0, $code),
            op!(SW r8, r26, area::PORT_HALT),
        ]
    };
}

/// An address in r8 that isn't user memory.
pub const BAD_POINTER_NODES: [Node; 7] = stop!(area::CODE_BAD_POINTER);

/// A handle in r8 that names no thread.
pub const BAD_THREAD_NODES: [Node; 7] = stop!(area::CODE_BAD_THREAD);

/// A frame too many, with the address in r31.
pub const DEEP_NODES: [Node; 4] = [
    op!(LUI r26, area::PORTS),
    op!(SW r31, r26, area::PORT_A),
    op!(ADDIU r8, r0, area::CODE_DEEP),
    op!(SW r8, r26, area::PORT_HALT),
];

/// The return of a function that the kernel hasn't called, with the context's r31.
pub const BAD_RETURN_NODES: [Node; 6] = [
    op!(LUI r26, area::AREA),
    op!(LW r10, r26, area::REGISTERS + 4 * 31),
    op!(LUI r26, area::PORTS),
    op!(ADDIU r8, r0, area::CODE_BAD_RETURN),
    op!(SW r10, r26, area::PORT_A),
    op!(SW r8, r26, area::PORT_HALT),
];
