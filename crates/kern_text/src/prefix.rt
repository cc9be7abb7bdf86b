//! The prefix that says a number's base.
ghost use Rattle.std.specs.Prelude.{◌≡◌, IsTrue};
ghost use Rattle.psx_flow.specs.Well.{is_well};
ghost use Rattle.psx_flow.specs.Spaced.{is_spaced};
ghost use Rattle.kern_text.specs.declared.prefix.TheConstants.{PREFIX_NODES};

use psx_flow::{Node, Test, op, register};

/// r6 is the base, r8 the address of the text's byte that comes, r14 where its user memory ends. r9 tells whether a prefix may stand there, and r10 is the base behind a first 0.
pub const PREFIX_NODES: [Node; 39] = [
    op!(OR r10, r0, r6),
    op!(ADDIU r9, r6, 0xFFF0),
    op!(SLTIU r9, r9, 1),
    Node::If(Test::Same(register!(r6), register!(r0))),
    op!(ADDIU r9, r0, 1),
    op!(ADDIU r6, r0, 10),
    op!(ADDIU r10, r0, 8),
    Node::End,
    Node::If(Test::Same(register!(r9), register!(r0))),
    Node::JumpTo(register!(r31)),
    Node::End,
    Node::If(Test::Same(register!(r8), register!(r14))),
    Node::JumpTo(register!(r31)),
    Node::End,
    op!(LBU r12, 0(r8)),
    op!(ADDIU r11, r0, 0x30),
    Node::If(Test::Differ(register!(r12), register!(r11))),
    Node::JumpTo(register!(r31)),
    Node::End,
    // A first 0 is a digit of itself. Behind an x the digits are hexadecimal; where there is none, the rest is the x.
    op!(OR r6, r0, r10),
    op!(ADDIU r8, r8, 1),
    op!(OR r13, r0, r8),
    Node::If(Test::Same(register!(r8), register!(r14))),
    Node::JumpTo(register!(r31)),
    Node::End,
    op!(LBU r12, 0(r8)),
    op!(NOP),
    op!(SLTIU r11, r12, 0x59),
    op!(SLTIU r10, r12, 0x58),
    op!(SUBU r11, r11, r10),
    op!(SLTIU r10, r12, 0x79),
    op!(ADDU r11, r11, r10),
    op!(SLTIU r10, r12, 0x78),
    op!(SUBU r11, r11, r10),
    Node::If(Test::Differ(register!(r11), register!(r0))),
    op!(ADDIU r6, r0, 16),
    op!(ADDIU r8, r8, 1),
    Node::End,
    Node::JumpTo(register!(r31)),
];

/// The listing that chooses the base of the number that stands at r8, by its prefix where r6 is 0 or 16. It comes back to r31.
/// r6 is then the base and r8 the address at which the digits go on, or r14 where user memory ended before; r13 is the address of the rest where no digit comes. r9 to r12 are changed too.
pub fn prefix() -> &'static [Node]
    ensures listing { result.now ≡ PREFIX_NODES }
    ensures well { IsTrue (is_well result.now) }
    ensures spaced { IsTrue (is_spaced result.now) }
{
    &PREFIX_NODES
}
