//! What is wrong with a text.
ghost use Rattle.std.specs.Prelude.{◌≡◌};
ghost use Rattle.psx_asm.specs.declared.fault.Failure.TheVariants.{Memory};

use crate::object::Name;
use std::alloc::{AllocError, AllocFailed};

/// What is wrong with a line. BadToken to Twice are looked for in all lines, in this order in each of them, before NoLabel to Overlap are,
/// in this order again.
#[derive(Drop, Debug)]
pub enum AsmFault {
    /// A byte that begins no token.
    BadToken,
    /// A statement that begins with no mnemonic or directive that is there.
    UnknownWord,
    /// Operands of a wrong number or kind, or out of a fixed range.
    BadOperand,
    /// A label or the name of an `.equ` that the text gave before as either.
    Twice { label: Name },
    /// A value with a name that the text doesn't give.
    NoLabel { label: Name },
    /// A value that doesn't fit its place, in its low 32 bits: the address of what isn't aligned, then an operand, then the first address
    /// outside the window.
    Range { value: u32 },
    /// Bytes where an earlier line placed some.
    Overlap,
}

/// Why a text gave no object.
#[derive(Drop, Debug)]
pub enum AsmError {
    /// More bytes than a text may have.
    TooLong { limit: usize },
    /// The first line with a fault, and its first fault. Lines are numbered from 1 on.
    Line { line: u32, fault: AsmFault },
    /// Want of memory.
    Memory,
}

/// The most bytes that a text may have.
pub(crate) const LONGEST: usize = 4_194_304;

/// What ends the reading or the placing of a line.
#[derive(Drop, Debug)]
pub(crate) enum Failure {
    Memory,
    Fault(AsmFault),
}

impl From<AllocError> for Failure {
    ghost from_gives = { λ _ e. e ≡ Memory };

    fn from(_e: AllocError) -> Failure {
        Failure::Memory
    }
}

impl<T: Drop> From<AllocFailed<T>> for Failure {
    ghost from_gives = { λ _ e. e ≡ Memory };

    fn from(_e: AllocFailed<T>) -> Failure {
        Failure::Memory
    }
}
