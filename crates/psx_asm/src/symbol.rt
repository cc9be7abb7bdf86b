//! What a name stands for.

/// What a name stands for: the number of an `.equ`, or the address of a label.
#[derive(Clone, Copy, PartialEq, Eq, Debug)]
pub enum Symbol {
    Number(i64),
    Address(u32),
}
