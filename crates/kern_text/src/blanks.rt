//! Blanks are passed over, and a sign behind them.
ghost use Rattle.std.specs.Prelude.{◌≡◌, IsTrue};
ghost use Rattle.psx_flow.specs.Well.{is_well};
ghost use Rattle.psx_flow.specs.Spaced.{is_spaced};
ghost use Rattle.kern_text.specs.declared.blanks.TheConstants.{BLANKS_NODES};

use psx_flow::{Node, Test, op, register};

/// r8 is the address of the text's byte that comes, r14 where its user memory ends. r10 tells whether a byte is a blank, and then whether it is a sign; r15 becomes 1 for a minus.
pub const BLANKS_NODES: [Node; 25] = [
    op!(OR r15, r0, r0),
    // The bytes before r8 are user memory and blanks, and those up to r14 are user memory.
    Node::While(Test::Differ(register!(r8), register!(r14))),
    op!(LBU r12, 0(r8)),
    op!(NOP),
    op!(SLTIU r10, r12, 0x0E),
    op!(SLTIU r11, r12, 0x09),
    op!(SUBU r10, r10, r11),
    op!(SLTIU r11, r12, 0x21),
    op!(ADDU r10, r10, r11),
    op!(SLTIU r11, r12, 0x20),
    op!(SUBU r10, r10, r11),
    Node::If(Test::Same(register!(r10), register!(r0))),
    op!(SLTIU r15, r12, 0x2E),
    op!(SLTIU r10, r12, 0x2D),
    op!(SUBU r15, r15, r10),
    op!(SLTIU r10, r12, 0x2C),
    op!(SLTIU r11, r12, 0x2B),
    op!(SUBU r10, r10, r11),
    op!(ADDU r10, r10, r15),
    op!(ADDU r8, r8, r10),
    Node::JumpTo(register!(r31)),
    Node::End,
    op!(ADDIU r8, r8, 1),
    Node::End,
    Node::JumpTo(register!(r31)),
];

/// The listing that passes over the blanks of a text from r8 on, and over one sign behind them. It comes back to r31.
/// r8 is then the address of the byte behind them, or r14 where user memory ended before, and r15 is 1 for a minus and else 0. r10 to r12 are changed too.
pub fn blanks() -> &'static [Node]
    ensures listing { result.now ≡ BLANKS_NODES }
    ensures well { IsTrue (is_well result.now) }
    ensures spaced { IsTrue (is_spaced result.now) }
{
    &BLANKS_NODES
}
