//! The items of a trace.

use psx_base::Stop;

/// By what the kernel was entered.
#[derive(Clone, Copy, PartialEq, Eq, Debug)]
pub enum Entered {
    /// The gate of table A.
    A,
    /// The gate of table B.
    B,
    /// The gate of table C.
    C,
    /// A SYSCALL outside the gates.
    Sys,
    /// An interrupt.
    Interrupt,
    /// Gate D0h, the program's return.
    Done,
    /// Gate E0h, a callback's return.
    Back,
    /// Any other exception.
    Trap,
}

/// The registers r1 to r31, in order.
#[derive(Clone, Copy, PartialEq, Eq, Debug)]
pub struct Regs(pub [u32; 31]);

/// What a trace tells of a run. The counts are of finished steps: of E, R and W before the step, of B and X after it.
#[derive(Clone, Copy, PartialEq, Eq, Debug)]
pub enum Item {
    /// The first return to the user side.
    B {
        count: u64,
    },
    /// An entry into the kernel: the cause and EPC of the exception, the gate, and the call's number.
    E {
        count: u64,
        cause: u32,
        epc: u32,
        gate: Entered,
        number: u32,
    },
    /// A read of a port, by its physical address.
    R {
        count: u64,
        at: u32,
        value: u32,
    },
    /// A write of a port, by its physical address.
    W {
        count: u64,
        at: u32,
        value: u32,
    },
    /// A further return to the user side, with the program's registers.
    X {
        count: u64,
        pc: u32,
        sr: u32,
        hi: u32,
        lo: u32,
        regs: Regs,
    },
    /// The stop, at the number of steps taken.
    S {
        count: u64,
        stop: Stop,
    },
}
