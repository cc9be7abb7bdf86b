//! The bytes of a text are written one by one, and r17 counts them.
ghost use Rattle.std.specs.Prelude.{◌≡◌, IsTrue};
ghost use Rattle.psx_flow.specs.Well.{is_well};
ghost use Rattle.psx_flow.specs.Spaced.{is_spaced};
ghost use Rattle.kern_stay.specs.Shared.{tree};
ghost use Rattle.kern_printf.specs.Interfaces.{Does};
ghost use Rattle.kern_printf.specs.declared.places.TheConstants as place;
ghost use Rattle.kern_printf.specs.declared.emission.TheConstants.{SIGN_NODES, DIGITS_NODES, TEXT_BYTES_NODES, NULL_BYTES_NODES};

use crate::places;
use crate::places::{DIGITS, NULL_BYTES, RIGHT, SIGN, TEXT_BYTES};
use psx_flow::{Node, Test, op, register};

/// r15 tells whether the byte of r8 is to come, and r19 is how many zeros are to come behind it.
pub const SIGN_NODES: [Node; 14] = [
    Node::If(Test::Differ(register!(r15), register!(r0))),
    op!(OR r15, r0, r0),
    op!(SW r8, r26, places::PORT_CONSOLE),
    op!(ADDIU r17, r17, 1),
    Node::Jump(SIGN),
    Node::End,
    Node::If(Test::Differ(register!(r19), register!(r0))),
    op!(ADDIU r19, r19, 0xFFFF),
    op!(ADDIU r12, r0, 0x30),
    op!(SW r12, r26, places::PORT_CONSOLE),
    op!(ADDIU r17, r17, 1),
    Node::Jump(SIGN),
    Node::End,
    Node::Jump(DIGITS),
];

/// r10 is how many digits of r9 are to come, in the base of r24, and r11 is the power of the base for the first of them. A digit above 9 has r25 added to it.
pub const DIGITS_NODES: [Node; 18] = [
    Node::If(Test::Same(register!(r10), register!(r0))),
    Node::Jump(RIGHT),
    Node::End,
    op!(ADDIU r10, r10, 0xFFFF),
    op!(DIVU r9, r11),
    op!(MFLO r12),
    op!(DIVU r12, r24),
    op!(MFHI r12),
    op!(DIVU r11, r24),
    op!(MFLO r11),
    op!(SLTIU r13, r12, 10),
    op!(ADDU r8, r12, r25),
    Node::If(Test::Differ(register!(r13), register!(r0))),
    op!(ADDIU r8, r12, 0x30),
    Node::End,
    op!(SW r8, r26, places::PORT_CONSOLE),
    op!(ADDIU r17, r17, 1),
    Node::Jump(DIGITS),
];

/// r9 is the address of the byte that comes, and r10 how many are to come.
pub const TEXT_BYTES_NODES: [Node; 9] = [
    Node::If(Test::Same(register!(r10), register!(r0))),
    Node::Jump(RIGHT),
    Node::End,
    op!(LBU r12, 0(r9)),
    op!(ADDIU r9, r9, 1),
    op!(ADDIU r10, r10, 0xFFFF),
    op!(SW r12, r26, places::PORT_CONSOLE),
    op!(ADDIU r17, r17, 1),
    Node::Jump(TEXT_BYTES),
];

/// The bytes to come stand in r9 and r25, the next one uppermost, and r10 is how many of them are to come.
pub const NULL_BYTES_NODES: [Node; 12] = [
    Node::If(Test::Same(register!(r10), register!(r0))),
    Node::Jump(RIGHT),
    Node::End,
    op!(ADDIU r10, r10, 0xFFFF),
    op!(SRL r12, r9, 24),
    op!(SW r12, r26, places::PORT_CONSOLE),
    op!(ADDIU r17, r17, 1),
    op!(SLL r9, r9, 8),
    op!(SRL r12, r25, 24),
    op!(ADDU r9, r9, r12),
    op!(SLL r25, r25, 8),
    Node::Jump(NULL_BYTES),
];

/// The listing that writes the byte of r8 where r15 isn't 0, and then r19 zeros: it comes back once for each. It goes on at DIGITS. r12 is changed too.
pub fn sign() -> &'static [Node]
    ensures listing { result.now ≡ SIGN_NODES }
    ensures well { IsTrue (is_well result.now) }
    ensures spaced { IsTrue (is_spaced result.now) }
    ensures stage { Does place.SIGN (tree result.now) }
{
    &SIGN_NODES
}

/// The listing that writes the r10 digits of r9 in the base of r24, where r11 is the power of the base for the first one: it comes back once for each. It goes on at RIGHT.
/// r8, r12, r13, HI and LO are changed too.
pub fn digits() -> &'static [Node]
    ensures listing { result.now ≡ DIGITS_NODES }
    ensures well { IsTrue (is_well result.now) }
    ensures spaced { IsTrue (is_spaced result.now) }
    ensures stage { Does place.DIGITS (tree result.now) }
{
    &DIGITS_NODES
}

/// The listing that writes the r10 bytes of user memory from r9 on: it comes back once for each. It goes on at RIGHT. r12 is changed too.
pub fn text_bytes() -> &'static [Node]
    ensures listing { result.now ≡ TEXT_BYTES_NODES }
    ensures well { IsTrue (is_well result.now) }
    ensures spaced { IsTrue (is_spaced result.now) }
    ensures stage { Does place.TEXT_BYTES (tree result.now) }
{
    &TEXT_BYTES_NODES
}

/// The listing that writes the upper r10 bytes of r9 and r25: it comes back once for each. It goes on at RIGHT. r12 is changed too.
pub fn null_bytes() -> &'static [Node]
    ensures listing { result.now ≡ NULL_BYTES_NODES }
    ensures well { IsTrue (is_well result.now) }
    ensures spaced { IsTrue (is_spaced result.now) }
    ensures stage { Does place.NULL_BYTES (tree result.now) }
{
    &NULL_BYTES_NODES
}
