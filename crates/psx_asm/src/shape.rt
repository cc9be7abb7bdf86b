//! Which operands a mnemonic or a directive takes.

/// Which operands an instruction takes, in their order.
#[derive(Clone, Copy, PartialEq, Eq, Debug)]
pub enum Shape {
    /// Nothing.
    Bare,
    /// A register.
    One,
    /// Two registers.
    Two,
    /// Three registers.
    Three,
    /// Two registers and a shift, 0 to 31.
    Shift,
    /// Two registers and a number of 16 bits with a sign.
    Signed,
    /// Two registers and a number of 16 bits without one.
    Unsigned,
    /// A register and a number of 16 bits without a sign.
    Upper,
    /// A register, and a number of 16 bits with a sign before a register in parentheses.
    Place,
    /// A register and the number of a register of coprocessor 0.
    Coprocessor,
    /// A number of 20 bits, or nothing for 0.
    Code,
    /// A branch's target.
    BranchAlways,
    /// A register and a branch's target.
    BranchOne,
    /// Two registers and a branch's target.
    BranchTwo,
    /// A jump's target.
    Jump,
    /// A register, and a number that it gets.
    LoadNumber,
    /// A register, and a value that it gets.
    LoadAddress,
}

/// How many bytes each value of a list takes.
#[derive(Clone, Copy, PartialEq, Eq, Debug)]
pub enum Width {
    Byte,
    Half,
    Word,
}

/// What a directive does.
#[derive(Clone, Copy, PartialEq, Eq, Debug)]
pub enum Directive {
    Org,
    Values(Width),
    Ascii,
    AsciiZero,
    Space,
    Align,
    Equ,
}
