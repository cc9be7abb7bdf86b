//! The listings by which the kernel reads and writes user memory. They are called: the address is in r8, the value in r9; r10 becomes 1 where the access is made, else 0.
ghost use Rattle.std.specs.Prelude.{◌≡◌, IsTrue, IfSome};
ghost use Rattle.psx_flow.specs.Reading.{tree_of};
ghost use Rattle.psx_flow.specs.Well.{is_well};
ghost use Rattle.psx_flow.specs.Spaced.{is_spaced};
ghost use Rattle.psx_flow.specs.Tested.{listing, ServesTested};

use crate::kinds::Tested;
use crate::node::{Node, Test};
use crate::{op, register};

// A listing that begins with the test of the address in r8: r10 becomes 1 where it is user memory, else 0.
macro_rules! user_then {
    ($($node:expr),* $(,)?) => {
        [
            // User memory of the lowest, the cached and the uncached segment: 2031616 bytes from 10000h, 80010000h and A0010000h.
            op!(LUI r11, 0x0001),
            op!(SUBU r11, r8, r11),
            op!(LUI r12, 0x001F),
            op!(SLTU r10, r11, r12),
            op!(LUI r11, 0x8001),
            op!(SUBU r11, r8, r11),
            op!(SLTU r11, r11, r12),
            op!(ADDU r10, r10, r11),
            op!(LUI r11, 0xA001),
            op!(SUBU r11, r8, r11),
            op!(SLTU r11, r11, r12),
            op!(ADDU r10, r10, r11),
            // The scratchpad: 1024 bytes from 1F800000h and 9F800000h.
            op!(LUI r11, 0x1F80),
            op!(SUBU r11, r8, r11),
            op!(SLTIU r11, r11, 0x0400),
            op!(ADDU r10, r10, r11),
            op!(LUI r11, 0x9F80),
            op!(SUBU r11, r8, r11),
            op!(SLTIU r11, r11, 0x0400),
            op!(ADDU r10, r10, r11),
            $($node),*
        ]
    };
}

// A listing for words: r10 becomes 0 where the address isn't a multiple of 4.
macro_rules! user_word_then {
    ($($node:expr),* $(,)?) => {
        user_then![
            op!(SLL r11, r8, 30),
            op!(SLTIU r11, r11, 1),
            op!(AND r10, r10, r11),
            $($node),*
        ]
    };
}

/// Reads a byte.
pub const READ_BYTE: [Node; 25] = user_then![
    Node::If(Test::Differ(register!(r10), register!(r0))),
    op!(LBU r9, 0(r8)),
    op!(NOP),
    Node::End,
    Node::JumpTo(register!(r31)),
];

/// Writes the low byte of r9.
pub const WRITE_BYTE: [Node; 24] = user_then![
    Node::If(Test::Differ(register!(r10), register!(r0))),
    op!(SB r9, 0(r8)),
    Node::End,
    Node::JumpTo(register!(r31)),
];

/// Reads a word.
pub const READ_WORD: [Node; 28] = user_word_then![
    Node::If(Test::Differ(register!(r10), register!(r0))),
    op!(LW r9, 0(r8)),
    op!(NOP),
    Node::End,
    Node::JumpTo(register!(r31)),
];

/// Writes r9.
pub const WRITE_WORD: [Node; 27] = user_word_then![
    Node::If(Test::Differ(register!(r10), register!(r0))),
    op!(SW r9, 0(r8)),
    Node::End,
    Node::JumpTo(register!(r31)),
];

/// The listing of a tested access. It ends by a jump to the address in r31. Where the address in r8 is user memory, for a word also a multiple of 4, it makes the access,
/// which is no other, and r10 becomes 1; else it makes none, and r10 becomes 0. It changes r10, r11, r12 and, where it reads, r9; nothing else.
pub fn tested(kind: Tested) -> &'static [Node]
    ensures listing { result.now ≡ listing kind }
    ensures well { IsTrue (is_well result.now) }
    ensures spaced { IsTrue (is_spaced result.now) }
    ensures serves { IfSome (tree_of result.now) (λ tree. ServesTested kind tree) }
{
    match kind {
        Tested::ReadByte => &READ_BYTE,
        Tested::WriteByte => &WRITE_BYTE,
        Tested::ReadWord => &READ_WORD,
        Tested::WriteWord => &WRITE_WORD,
    }
}
