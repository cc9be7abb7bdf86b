//! A program, as a file holds it.
ghost use Rattle.std.specs.Prelude.{◌≡◌, ◌⊎◌, ◌<◌, ◌^◌, Ok, Err, IfOk, IfErr, IsOk, IsErrOf, length};

use crate::fault::{ExeError, fault};
use crate::header::{HEADER_SIZE, Header};
use crate::text::Text;
use psx_base::Memory;
use std::alloc::{AllocError, Global};

/// A program: the numbers of its header, and its text.
///
/// All numbers but `fill_size` and `sp_offset` are virtual addresses.
#[derive(Drop)]
pub struct Exe {
    /// The address of the first instruction.
    pub pc: u32,
    /// The first value of gp.
    pub gp: u32,
    /// Where the text is placed.
    pub dest: u32,
    /// Where zeros are placed, after the text.
    pub fill_start: u32,
    /// How many zeros.
    pub fill_size: u32,
    /// The stack's first address, before its offset is added; 0 for the system's own stack.
    pub sp_base: u32,
    /// What is added to the base, modulo 2^32.
    pub sp_offset: u32,
    /// The bytes that are placed.
    pub text: Text,
}

impl Exe {
    ghost use Rattle.psx_exe.specs.Reading.{read_of, IsReadable};
    ghost use Rattle.psx_exe.specs.Writing.{header_for, written};
    ghost use Rattle.psx_exe.specs.declared.fault.ExeError.{ExeError};

    /// The program that a file is, or the file's first fault. `Memory` comes only for a file without a fault.
    #[tactic(auto, unfolding(crate::specs::Reading::read_of))]
    pub fn read(alloc: Global, bytes: &[u8]) -> Result<Exe, ExeError>
        ensures program { IfOk result (λ exe. read_of bytes.now ≡ Ok exe) }
        ensures fault { IfErr (read_of bytes.now) (λ fault. result ≡ Err fault) }
        ensures readable { IfOk result IsReadable }
        ensures memory { IsErrOf result ExeError.Memory → IsOk (read_of bytes.now) }
        ensures first { IfErr result (λ e. (e ≡ ExeError.Memory) ⊎ (read_of bytes.now ≡ Err e)) }
    {
        if let Some(fault) = fault(bytes) {
            return Err(fault);
        }
        let header = Header::of(bytes);
        let end = HEADER_SIZE + header.size as usize;
        match Text::from_slice(alloc, &bytes[HEADER_SIZE..end]) {
            Ok(text) => Ok(Exe {
                pc: header.pc,
                gp: header.gp,
                dest: header.dest,
                fill_start: header.fill_start,
                fill_size: header.fill_size,
                sp_base: header.sp_base,
                sp_offset: header.sp_offset,
                text,
            }),
            Err(_) => Err(ExeError::Memory),
        }
    }

    /// The file of the program, with 0 in each byte of the header that has no name.
    pub fn write(&self, alloc: Global) -> Result<Vec<u8>, Memory>
        requires { length self.now.text < 2 ^ 31 }
        ensures bytes { IfOk result (λ file. file.items ≡ written self.now) }
        ensures reads_back { IfOk result (λ file. IsReadable self.now → read_of file.items ≡ Ok self.now) }
    {
        match self.bytes(alloc) {
            Ok(bytes) => Ok(bytes),
            Err(_) => Err(Memory),
        }
    }

    // The header of its file.
    fn header(&self) -> Header
        requires { length self.now.text < 2 ^ 31 }
        ensures { result ≡ header_for self.now }
    {
        Header {
            pc: self.pc,
            gp: self.gp,
            dest: self.dest,
            size: self.text.len() as u32,
            fill_start: self.fill_start,
            fill_size: self.fill_size,
            sp_base: self.sp_base,
            sp_offset: self.sp_offset,
        }
    }

    // Its file, by the allocator's own error.
    fn bytes(&self, alloc: Global) -> Result<Vec<u8>, AllocError>
        requires { length self.now.text < 2 ^ 31 }
        ensures bytes { IfOk result (λ file. file.items ≡ written self.now) }
        ensures reads_back { IfOk result (λ file. IsReadable self.now → read_of file.items ≡ Ok self.now) }
    {
        let mut out = self.header().bytes(alloc)?;
        out.extend_from_slice(self.text.as_slice())?;
        Ok(out)
    }
}
