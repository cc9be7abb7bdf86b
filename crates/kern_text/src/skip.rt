//! A run of bytes that are in a set, or that aren't, is passed over.
ghost use Rattle.std.specs.Prelude.{◌≡◌, IsTrue};
ghost use Rattle.psx_flow.specs.Well.{is_well};
ghost use Rattle.psx_flow.specs.Spaced.{is_spaced};
ghost use Rattle.kern_text.specs.declared.skip.TheConstants.{SKIP_NODES};

use psx_flow::{Node, Test, op, register};

/// r8 is the address of the text's byte that comes, r14 where its user memory ends; r5 is the set, r15 where its user memory ends. r13 is 0 where the bytes that aren't in the set are passed over.
pub const SKIP_NODES: [Node; 31] = [
    // The bytes before r8 are user memory and passed over, and those up to r14 are user memory.
    Node::While(Test::Differ(register!(r8), register!(r14))),
    op!(LBU r12, 0(r8)),
    op!(OR r9, r0, r5),
    Node::If(Test::Same(register!(r12), register!(r0))),
    op!(ADDIU r10, r0, 1),
    Node::JumpTo(register!(r31)),
    Node::End,
    op!(OR r24, r0, r12),
    op!(OR r25, r0, r0),
    Node::If(Test::Same(register!(r13), register!(r0))),
    op!(OR r24, r0, r0),
    op!(OR r25, r0, r12),
    Node::End,
    op!(OR r10, r0, r25),
    // The bytes of the set before r9 are user memory and neither r12 nor 0. With r24 the text goes on behind r12, and with r25 it stops there.
    Node::While(Test::Differ(register!(r10), register!(r24))),
    Node::If(Test::Same(register!(r9), register!(r15))),
    op!(OR r8, r0, r9),
    op!(OR r10, r0, r0),
    Node::JumpTo(register!(r31)),
    Node::End,
    op!(LBU r10, 0(r9)),
    op!(ADDIU r9, r9, 1),
    Node::If(Test::Same(register!(r10), register!(r25))),
    op!(ADDIU r10, r0, 1),
    Node::JumpTo(register!(r31)),
    Node::End,
    Node::End,
    op!(ADDIU r8, r8, 1),
    Node::End,
    op!(OR r10, r0, r0),
    Node::JumpTo(register!(r31)),
];

/// The listing that passes over the bytes of a text from r8 on which are in the set at r5, or where r13 is 0 over those which aren't. It comes back to r31.
/// r10 is then 1, r8 has the address of the byte behind them and r12 that byte; or r10 is 0 and r8 has the first address that isn't user memory. r9, r24 and r25 are changed too.
pub fn skip() -> &'static [Node]
    ensures listing { result.now ≡ SKIP_NODES }
    ensures well { IsTrue (is_well result.now) }
    ensures spaced { IsTrue (is_spaced result.now) }
{
    &SKIP_NODES
}
