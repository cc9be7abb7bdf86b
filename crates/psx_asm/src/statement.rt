//! Statements: what a line does.
ghost use Rattle.std.specs.Prelude.{◌<◌, IsTrue};
ghost use Rattle.psx_ins.specs.Words.{fits_fields};

use crate::shape::Width;
use psx_ins::ins::Ins;
use psx_ins::reg::Reg;

/// An instruction that has a word.
#[derive(Clone, Copy)]
pub(crate) struct Code {
    pub ins: Ins,
    ghost fits: { IsTrue (fits_fields ins) },
}

/// A register that there is.
#[derive(Clone, Copy)]
pub(crate) struct General {
    pub reg: Reg,
    ghost small: { reg.0 < 32 },
}

/// A value of an operand: a number, or a name and a number that is added.
#[derive(Clone, Copy, Debug)]
pub(crate) enum Value<'a> {
    Number(i64),
    Sum(&'a [u8], i64),
}

/// A statement whose numbers are known and whose labels aren't.
#[derive(Drop)]
pub(crate) enum Statement<'a> {
    /// Nothing.
    Empty,
    /// An instruction.
    Alone(Code),
    /// Two instructions.
    Pair(Code, Code),
    /// A branch to a target, by the branch to its own slot.
    Branch(Code, Value<'a>),
    /// A jump to a target, by the jump to the beginning of its 256 MB.
    Jump(Code, Value<'a>),
    /// A register gets a value.
    Address(General, Value<'a>),
    /// Values one behind the other.
    Values(Width, Vec<Value<'a>>),
    /// Bytes one behind the other.
    Text(Vec<u8>),
    /// So many zeros.
    Space(u32),
    /// Zeros up to a multiple of one more than this.
    Align(u16),
    /// The next address.
    Org(u32),
    /// A name for a number.
    Equ(&'a [u8], i64),
}
