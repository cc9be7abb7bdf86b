//! Tokens and what makes a line have none.

/// What a token is. Registers, mnemonics and labels are names.
#[derive(Clone, Copy, PartialEq, Eq, Debug)]
pub enum Kind {
    /// A letter or `_`, then letters, digits and `_`, at most 63 bytes.
    Name,
    /// A dot and a name.
    Directive,
    /// A number from -2147483648 to 4294967295: decimal digits, `0x` and hexadecimal digits, or a byte in single quotes, each with an optional minus sign.
    Number { value: i64 },
    /// Bytes in double quotes.
    Text,
    /// One of `:`, `(`, `)` and `+`.
    Mark,
}

/// A token of a line: its text is the slice of the line from the one place up to the other, in bytes.
#[derive(Clone, Copy, PartialEq, Eq, Debug)]
pub struct Token {
    pub kind: Kind,
    pub from: usize,
    pub to: usize,
}

/// Why a line gave no tokens.
#[derive(Clone, Copy, PartialEq, Eq, Debug)]
pub enum LexError {
    /// The place of the first byte that begins no token, in bytes from the line's beginning. A number out of its range and a name of more
    /// than 63 bytes are no tokens.
    BadToken { at: usize },
    /// Want of memory.
    Memory,
}
