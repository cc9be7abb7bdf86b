//! What makes a text no schedule.

/// Why a text gave no schedule. TooLong comes first, and then the first faulty line in the order of the text. Lines are numbered
/// from 1 on, and a rest without a line feed at the text's end is a line of another form.
#[derive(Clone, Copy, PartialEq, Eq, Debug)]
pub enum SchedError {
    /// More bytes than a text may have.
    TooLong { limit: usize },
    /// A line of another form.
    BadLine { line: u32 },
    /// A line whose count is less than the one before.
    OutOfOrder { line: u32 },
    /// One line more than a text may have, whatever it holds.
    TooMany,
    /// Want of memory.
    Memory,
}

/// The most bytes that a text may have.
pub const LONGEST: usize = 4_194_304;

/// The most lines that a text may have.
pub const MOST: usize = 65_536;
