//! What makes a file no program.
ghost use Rattle.std.specs.Prelude.{◌≡◌};
ghost use Rattle.psx_exe.specs.Faults.{first_fault, header_fault};

use crate::header::{HEADER_SIZE, Header, MARK};
use psx_base::{Addr, first_bad};

/// Why a file gave no program. All but the last are looked for in this order.
#[derive(Clone, Copy, PartialEq, Eq, Debug)]
pub enum ExeError {
    /// More bytes than a file may have.
    TooLong { limit: usize },
    /// Fewer bytes than the header has.
    Short,
    /// The first eight bytes aren't `PS-X EXE`.
    NoMark,
    /// The text would reach an address that isn't user memory: the first one.
    TextRange { at: u32 },
    /// Fewer bytes than header and text need.
    Truncated { need: u64 },
    /// The fill would reach an address that isn't user memory: the first one.
    FillRange { at: u32 },
    /// The start isn't a multiple of 4 in user memory.
    BadPc { pc: u32 },
    /// Want of memory.
    Memory,
}

/// The most bytes that a file may have.
pub const LONGEST: usize = 0x80_0000;

// The first fault of a header in a file of so many bytes.
fn fault_of_header(header: Header, len: u64) -> Option<ExeError>
    ensures { result ≡ header_fault header len }
{
    if let Some(at) = first_bad(header.dest, header.size) {
        return Some(ExeError::TextRange { at });
    }
    let need = HEADER_SIZE as u64 + u64::from(header.size);
    if len < need {
        return Some(ExeError::Truncated { need });
    }
    if let Some(at) = first_bad(header.fill_start, header.fill_size) {
        return Some(ExeError::FillRange { at });
    }
    if header.pc % 4 == 0 && Addr(header.pc).is_user() {
        None
    } else {
        Some(ExeError::BadPc { pc: header.pc })
    }
}

/// The first fault of a file, in the order of the type. It is never `Memory`.
#[tactic(auto, unfolding(crate::specs::Faults::first_fault))]
pub fn fault(bytes: &[u8]) -> Option<ExeError>
    ensures { result ≡ first_fault bytes.now }
{
    if bytes.len() > LONGEST {
        return Some(ExeError::TooLong { limit: LONGEST });
    }
    if bytes.len() < HEADER_SIZE {
        return Some(ExeError::Short);
    }
    if !bytes.starts_with(MARK) {
        return Some(ExeError::NoMark);
    }
    fault_of_header(Header::of(bytes), bytes.len() as u64)
}
