//! The digits of a number.
ghost use Rattle.std.specs.Prelude.{◌≡◌, IsTrue};
ghost use Rattle.psx_flow.specs.Well.{is_well};
ghost use Rattle.psx_flow.specs.Spaced.{is_spaced};
ghost use Rattle.kern_text.specs.declared.digits.TheConstants.{DIGITS_NODES};

use psx_flow::{Node, Test, op, register};

/// r2 is the number that the digits before r8 stand for, r6 the base, r8 the address of the text's byte that comes, r14 where its user memory ends; r13 is the address of the rest, r15 not 0 for a minus.
/// r10 becomes the byte as a digit, which is at least 36 where it is none.
pub const DIGITS_NODES: [Node; 34] = [
    // The bytes before r8 are user memory and digits, and those up to r14 are user memory.
    Node::While(Test::Differ(register!(r8), register!(r14))),
    op!(LBU r12, 0(r8)),
    op!(NOP),
    op!(SLTIU r11, r12, 0x3A),
    op!(ADDIU r10, r12, 0xFFD0),
    Node::If(Test::Same(register!(r11), register!(r0))),
    // A letter is 10 or above, of either case.
    op!(SLTIU r11, r12, 0x5B),
    op!(ADDIU r10, r12, 0xFFC9),
    Node::If(Test::Same(register!(r11), register!(r0))),
    op!(SLTIU r11, r12, 0x7B),
    op!(ADDIU r10, r12, 0xFFA9),
    Node::End,
    op!(SLTIU r12, r10, 10),
    op!(SLTU r11, r12, r11),
    Node::If(Test::Same(register!(r11), register!(r0))),
    op!(ADDIU r10, r0, 36),
    Node::End,
    Node::End,
    op!(SLTU r11, r10, r6),
    Node::If(Test::Same(register!(r11), register!(r0))),
    Node::If(Test::Differ(register!(r15), register!(r0))),
    op!(SUBU r2, r0, r2),
    Node::End,
    op!(ADDIU r10, r0, 1),
    Node::JumpTo(register!(r31)),
    Node::End,
    op!(MULTU r2, r6),
    op!(MFLO r2),
    op!(ADDU r2, r2, r10),
    op!(ADDIU r8, r8, 1),
    op!(OR r13, r0, r8),
    Node::End,
    op!(OR r10, r0, r0),
    Node::JumpTo(register!(r31)),
];

/// The listing that takes the digits of a text from r8 on which are below the base of r6, and gives the number a sign. It comes back to r31.
/// r10 is then 1, r2 the number modulo 2^32 and r13 the address of the rest; or r10 is 0 and r8 has the first address that isn't user memory. r11, r12, HI and LO are changed too.
pub fn digits() -> &'static [Node]
    ensures listing { result.now ≡ DIGITS_NODES }
    ensures well { IsTrue (is_well result.now) }
    ensures spaced { IsTrue (is_spaced result.now) }
{
    &DIGITS_NODES
}
