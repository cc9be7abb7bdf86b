//! Writers of numbers and operands. Each appends to a text, which after an error is of no use.
ghost use Rattle.std.specs.Prelude.{◌≡◌, ◌<◌, ◌++◌, ◌∷◌, [], OnOk, decimal, codes};
ghost use Rattle.std.specs.String.{string_bytes};
ghost use Rattle.psx_text.specs.Digits.{hex_digit};
ghost use Rattle.psx_dis.specs.Numbers.{hex_word, signed_text};
ghost use Rattle.psx_dis.specs.Printed.{register_text, operand_text, operands_text};

use crate::operands::{Operand, Operands};
use itoa::Buffer;
use psx_ins::reg::Reg;
use psx_text::hex_digit;
use std::alloc::AllocError;

// Appends a digit.
fn put_digit(text: &mut String, digit: u32) -> Result<(), AllocError>
    requires { digit < 16 }
    ensures { OnOk result (string_bytes text.new ≡ string_bytes text.old ++ hex_digit digit ∷ []) }
{
    text.push(hex_digit(digit) as char)
}

/// Appends a word in eight hexadecimal digits with capitals behind 0x.
#[tactic(auto, unfolding(psx_text::specs::Digits::hex8))]
pub(crate) fn put_word(text: &mut String, word: u32) -> Result<(), AllocError>
    ensures { OnOk result (string_bytes text.new ≡ string_bytes text.old ++ hex_word word) }
{
    text.push_str("0x")?;
    put_digit(text, word / 0x1000_0000)?;
    put_digit(text, word / 0x100_0000 % 16)?;
    put_digit(text, word / 0x10_0000 % 16)?;
    put_digit(text, word / 0x1_0000 % 16)?;
    put_digit(text, word / 0x1000 % 16)?;
    put_digit(text, word / 0x100 % 16)?;
    put_digit(text, word / 0x10 % 16)?;
    put_digit(text, word % 16)
}

// Appends a number in decimal.
fn put_number(text: &mut String, number: u32) -> Result<(), AllocError>
    ensures { OnOk result (string_bytes text.new ≡ string_bytes text.old ++ decimal number) }
{
    text.push_str(Buffer::new().format(number))
}

// Appends 16 bits as a signed number in decimal.
fn put_signed(text: &mut String, imm: u16) -> Result<(), AllocError>
    ensures { OnOk result (string_bytes text.new ≡ string_bytes text.old ++ signed_text imm) }
{
    if imm < 0x8000 {
        return put_number(text, imm as u32);
    }
    text.push_str("-")?;
    put_number(text, 0x1_0000 - imm as u32)
}

// Appends the name of a register.
fn put_register(text: &mut String, register: Reg) -> Result<(), AllocError>
    ensures { OnOk result (string_bytes text.new ≡ string_bytes text.old ++ register_text register) }
{
    text.push_str("r")?;
    put_number(text, register.0)
}

// Appends a place in memory.
fn put_place(text: &mut String, imm: u16, base: Reg) -> Result<(), AllocError>
    ensures { OnOk result (string_bytes text.new ≡ string_bytes text.old
        ++ (signed_text imm ++ codes "(" ++ register_text base ++ codes ")")) }
{
    put_signed(text, imm)?;
    text.push_str("(")?;
    put_register(text, base)?;
    text.push_str(")")
}

// Appends an operand.
fn put_operand(text: &mut String, operand: Operand) -> Result<(), AllocError>
    ensures { OnOk result (string_bytes text.new ≡ string_bytes text.old ++ operand_text operand) }
{
    match operand {
        Operand::Register(register) => put_register(text, register),
        Operand::Number(number) => put_number(text, number),
        Operand::Signed(imm) => put_signed(text, imm),
        Operand::Place(imm, base) => put_place(text, imm, base),
        Operand::Target(target) => put_word(text, target),
    }
}

// Appends an operand behind what parts it from what stands before.
fn put_behind(text: &mut String, before: &str, operand: Operand) -> Result<(), AllocError>
    ensures { OnOk result (string_bytes text.new ≡ string_bytes text.old ++ (before.now ++ operand_text operand)) }
{
    text.push_str(before)?;
    put_operand(text, operand)
}

/// Appends operands behind a space, parted by a comma and a space.
pub(crate) fn put_operands(text: &mut String, operands: Operands) -> Result<(), AllocError>
    ensures { OnOk result (string_bytes text.new ≡ string_bytes text.old ++ operands_text operands) }
{
    match operands {
        Operands::Nothing => Ok(()),
        Operands::One(a) => put_behind(text, " ", a),
        Operands::Two(a, b) => {
            put_behind(text, " ", a)?;
            put_behind(text, ", ", b)
        }
        Operands::Three(a, b, c) => {
            put_behind(text, " ", a)?;
            put_behind(text, ", ", b)?;
            put_behind(text, ", ", c)
        }
    }
}
