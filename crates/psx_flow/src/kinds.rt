//! The accesses to user memory that the kernel makes.

/// An access to user memory that is tried: it is made where the address is user memory, for a word also a multiple of 4, and else refused.
#[derive(Clone, Copy, PartialEq, Eq)]
pub enum Tested {
    /// A byte is read.
    ReadByte,
    /// A byte is written.
    WriteByte,
    /// A word is read.
    ReadWord,
    /// A word is written.
    WriteWord,
}
