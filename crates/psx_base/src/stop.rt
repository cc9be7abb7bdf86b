//! How a run ends, and the small types that many crates pass on.

/// Want of memory: the host's allocator had no room.
#[derive(Clone, Copy, PartialEq, Eq, Debug)]
pub struct Memory;

/// The sizes of the kernel's tables: threads 4 to 16, events 16 to 64. The type itself doesn't bound them.
#[derive(Clone, Copy, PartialEq, Eq, Debug)]
pub struct Sizes {
    /// Slots for threads.
    pub threads: u32,
    /// Event control blocks.
    pub events: u32,
}

/// The three tables of calls, by their gates, and the SYSCALLs outside the gates.
#[derive(Clone, Copy, PartialEq, Eq, Debug)]
pub enum Table {
    /// By the gate A0h.
    A,
    /// By the gate B0h.
    B,
    /// By the gate C0h.
    C,
    /// A SYSCALL outside the gates, by the number in a0.
    Sys,
}

/// How a run ends, with its reason and address.
///
/// `ra` is r31 for a gate call and for a callback's return, and EPC for a SYSCALL and an interrupt.
/// `pc` of Exception is EPC. A stop of the guard names the instruction's own address as `pc`.
#[derive(Clone, Copy, PartialEq, Eq, Debug)]
pub enum Stop {
    /// The program ended with a code.
    Exit { code: u32 },
    /// The budget of steps was used up.
    Budget,
    /// The program was to be fetched outside user memory and the gates.
    UserFetch { at: u32 },
    /// A load or store of the program reached outside user memory.
    UserData { pc: u32, at: u32 },
    /// The program used MFC0, MTC0 or RFE.
    Protected { pc: u32 },
    /// The program had a branch or jump in a delay slot.
    SlotBranch { pc: u32 },
    /// The program raised an exception that the kernel doesn't serve.
    Exception { code: u32, pc: u32 },
    /// No such call is served.
    Unserved { table: Table, number: u32, ra: u32 },
    /// A call was given an address that it can't use.
    BadPointer { at: u32, ra: u32 },
    /// A call named a thread that isn't there.
    BadThread { number: u32, ra: u32 },
    /// Callbacks are nested too deep.
    Deep { ra: u32 },
    /// A return from a callback where none is at work.
    BadReturn { ra: u32 },
}
