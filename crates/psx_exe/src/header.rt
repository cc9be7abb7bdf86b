//! The header of a program's file: its mark and its numbers, little-endian (PSX-SPX, EXE header).
ghost use Rattle.std.specs.Prelude.{◌≡◌, ◌≤◌, ◌++◌, ◌+◌, IfOk, OnOk, length, vec_len};
ghost use Rattle.byteorder.specs.Endian.{little_bytes};

use byteorder::{ByteOrder, LittleEndian};
use std::alloc::{AllocError, Global};

/// The bytes of the header, behind which the text stands.
pub const HEADER_SIZE: usize = 0x800;

/// The eight bytes at a file's start.
pub const MARK: &[u8] = b"PS-X EXE";

/// The numbers of a header, in the order in which they stand in the file.
#[derive(Clone, Copy)]
pub struct Header {
    pub pc: u32,
    pub gp: u32,
    pub dest: u32,
    pub size: u32,
    pub fill_start: u32,
    pub fill_size: u32,
    pub sp_base: u32,
    pub sp_offset: u32,
}

impl Header {
    ghost use Rattle.psx_exe.specs.Header.{header_of};
    ghost use Rattle.psx_exe.specs.Writing.{named_bytes, padding, IsSmall};

    /// The numbers that stand in a file's first bytes.
    #[tactic(auto, unfolding(crate::specs::Header::header_of))]
    pub fn of(bytes: &[u8]) -> Header
        requires { 0x38 ≤ length bytes.now }
        ensures { result ≡ header_of bytes.now }
    {
        Header {
            pc: LittleEndian::read_u32(&bytes[0x10..]),
            gp: LittleEndian::read_u32(&bytes[0x14..]),
            dest: LittleEndian::read_u32(&bytes[0x18..]),
            size: LittleEndian::read_u32(&bytes[0x1C..]),
            fill_start: LittleEndian::read_u32(&bytes[0x28..]),
            fill_size: LittleEndian::read_u32(&bytes[0x2C..]),
            sp_base: LittleEndian::read_u32(&bytes[0x30..]),
            sp_offset: LittleEndian::read_u32(&bytes[0x34..]),
        }
    }

    /// The header's bytes: mark and numbers at their places, and 0 elsewhere.
    pub fn bytes(self, alloc: Global) -> Result<Vec<u8>, AllocError>
        ensures bytes { IfOk result (λ v. v.items ≡ named_bytes self ++ padding) }
        ensures small { IsSmall self }
    {
        let mut out = self.named_bytes(alloc)?;
        out.resize(HEADER_SIZE, 0)?;
        Ok(out)
    }

    // The header's bytes up to the last number.
    fn named_bytes(self, alloc: Global) -> Result<Vec<u8>, AllocError>
        ensures bytes { IfOk result (λ v. v.items ≡ named_bytes self) }
        ensures len { IfOk result (λ v. vec_len v ≡ 0x38) }
    {
        let mut out = Vec::from_slice(alloc, MARK)?;
        out.extend_from_slice(&[0; 8])?;
        push_number(&mut out, self.pc)?;
        push_number(&mut out, self.gp)?;
        push_number(&mut out, self.dest)?;
        push_number(&mut out, self.size)?;
        out.extend_from_slice(&[0; 8])?;
        push_number(&mut out, self.fill_start)?;
        push_number(&mut out, self.fill_size)?;
        push_number(&mut out, self.sp_base)?;
        push_number(&mut out, self.sp_offset)?;
        Ok(out)
    }
}

// Appends a number in four bytes.
fn push_number(out: &mut Vec<u8>, number: u32) -> Result<(), AllocError>
    ensures bytes { OnOk result (out.new.items ≡ out.old.items ++ little_bytes 4 number) }
    ensures len { OnOk result (vec_len out.new ≡ vec_len out.old + 4) }
{
    let mut bytes = [0; 4];
    LittleEndian::write_u32(&mut bytes, number);
    out.extend_from_slice(&bytes)
}
