//! The instructions of the R3000A and their 32-bit words, both ways.
//!
//! `encode` gives the word of the instruction table (`specs/Words.antt`), and `decode` the one instruction
//! that has a word, or None where no instruction has it. The processor decodes by it, and the assembler
//! and the printer encode and decode by it.
#![tactic(auto)]

ghost use Rattle.std.specs.Prelude.{◌≡◌, ◌≢◌, IsTrue, Some, None, IfSome};
ghost use Rattle.psx_ins.specs.declared.ins.Ins.{Ins as Instruction};
ghost use Rattle.psx_ins.specs.Decoding.{instruction_of};
ghost use Rattle.psx_ins.specs.Words.{word, fits_fields};

mod decoding;
pub mod form;
pub mod ins;
pub mod reg;
#[cfg(test)]
mod tests;

use ins::Ins;

/// Whether every register and shift is below 32, the target below 2^26 and the code below 2^20, so that
/// the instruction has a word.
pub fn fits(ins: Ins) -> bool
    ensures { result ≡ fits_fields ins }
{
    form::is_in_range(form::form_of(ins))
}

/// The word of an instruction that fits. An instruction that `decode` gives fits.
pub fn encode(ins: Ins) -> u32
    requires { IsTrue (fits_fields ins) }
    ensures { result ≡ word ins }
{
    form::word_of(form::form_of(ins))
}

/// The one instruction that has this word. A word whose unused fields are not all 0 is no instruction.
pub fn decode(bits: u32) -> Option<Ins>
    ensures value { result ≡ instruction_of bits }
    ensures found { IfSome result (λ i. (word i ≡ bits) × IsTrue (fits_fields i)) }
    ensures none { result ≡ None → (i : Instruction) → IsTrue (fits_fields i) → word i ≢ bits }

    // No other instruction has the word.
    ensures exact { (i : Instruction) → IsTrue (fits_fields i) → word i ≡ bits → result ≡ Some i }
{
    decoding::by_fields(bits)
}
