//! A number as an argument: its sign, its digits and the zeros before them; and a byte.
ghost use Rattle.std.specs.Prelude.{◌≡◌, IsTrue};
ghost use Rattle.psx_flow.specs.Well.{is_well};
ghost use Rattle.psx_flow.specs.Spaced.{is_spaced};
ghost use Rattle.kern_stay.specs.Shared.{tree};
ghost use Rattle.kern_printf.specs.Interfaces.{Does};
ghost use Rattle.kern_printf.specs.declared.places.TheConstants as place;
ghost use Rattle.kern_printf.specs.declared.number.TheConstants.{NUMBER_NODES, FILL_NODES, COUNT_NODES, ZEROS_NODES, BYTE_NODES};

use crate::places;
use crate::places::{COUNT, FILL, PADDING, ZEROS};
use psx_flow::{Node, Test, op, register};

/// r9 is the number, r15 tells whether it has a sign. r15 becomes 1 where a minus is to be written, and r9 the number without it. r8 is the minus.
pub const NUMBER_NODES: [Node; 8] = [
    op!(ADDIU r8, r0, 0x2D),
    Node::If(Test::Differ(register!(r15), register!(r0))),
    op!(SRL r15, r9, 31),
    Node::If(Test::Differ(register!(r15), register!(r0))),
    op!(SUBU r9, r0, r9),
    Node::End,
    Node::End,
    Node::Jump(FILL),
];

/// r21 becomes how many digits there are to be at least: the precision, else as many as the width has behind the sign where they fill it, else 1.
pub const FILL_NODES: [Node; 15] = [
    op!(OR r10, r0, r0),
    op!(ADDIU r11, r0, 1),
    op!(OR r12, r0, r9),
    Node::If(Test::Same(register!(r22), register!(r0))),
    op!(ADDIU r21, r0, 1),
    Node::If(Test::Same(register!(r18), register!(r0))),
    Node::If(Test::Differ(register!(r19), register!(r0))),
    op!(SLTU r13, r15, r20),
    Node::If(Test::Differ(register!(r13), register!(r0))),
    op!(SUBU r21, r20, r15),
    Node::End,
    Node::End,
    Node::End,
    Node::End,
    Node::Jump(COUNT),
];

/// r10 is how often r9 was divided by the base of r24, r11 that power of the base, and r12 the quotient.
pub const COUNT_NODES: [Node; 13] = [
    op!(SLTU r13, r12, r24),
    Node::If(Test::Same(register!(r13), register!(r0))),
    op!(DIVU r12, r24),
    op!(MFLO r12),
    op!(MULTU r11, r24),
    op!(MFLO r11),
    op!(ADDIU r10, r10, 1),
    Node::Jump(COUNT),
    Node::End,
    Node::If(Test::Differ(register!(r9), register!(r0))),
    op!(ADDIU r10, r10, 1),
    Node::End,
    Node::Jump(ZEROS),
];

/// r10 is how many digits there are, r19 becomes how many zeros stand before them, and r12 the length of all.
pub const ZEROS_NODES: [Node; 10] = [
    op!(OR r19, r0, r0),
    op!(SLTU r13, r10, r21),
    Node::If(Test::Differ(register!(r13), register!(r0))),
    op!(SUBU r19, r21, r10),
    Node::End,
    op!(ADDU r12, r10, r19),
    op!(ADDU r12, r12, r15),
    op!(LUI r30, places::CODE),
    op!(ADDIU r30, r30, places::SIGN_LOW),
    Node::Jump(PADDING),
];

/// A byte stands in the place of a sign, without digits.
pub const BYTE_NODES: [Node; 8] = [
    op!(OR r8, r0, r9),
    op!(ADDIU r15, r0, 1),
    op!(OR r19, r0, r0),
    op!(OR r10, r0, r0),
    op!(ADDIU r12, r0, 1),
    op!(LUI r30, places::CODE),
    op!(ADDIU r30, r30, places::SIGN_LOW),
    Node::Jump(PADDING),
];

/// The listing of a number in r9: it takes its sign. It goes on at FILL. r8, r9 and r15 are changed.
pub fn number() -> &'static [Node]
    ensures listing { result.now ≡ NUMBER_NODES }
    ensures well { IsTrue (is_well result.now) }
    ensures spaced { IsTrue (is_spaced result.now) }
    ensures stage { Does place.NUMBER (tree result.now) }
{
    &NUMBER_NODES
}

/// The listing that says in r21 how many digits a number is to have at least. It goes on at COUNT, with 0 in r10, 1 in r11 and r9 in r12. r13 is changed too.
pub fn fill() -> &'static [Node]
    ensures listing { result.now ≡ FILL_NODES }
    ensures well { IsTrue (is_well result.now) }
    ensures spaced { IsTrue (is_spaced result.now) }
    ensures stage { Does place.FILL (tree result.now) }
{
    &FILL_NODES
}

/// The listing that counts the digits of r9 in the base of r24: it comes back once for each but the first.
/// It goes on at ZEROS with their number in r10, and in r11 the power of the base for the first one. r12, r13, HI and LO are changed too.
pub fn count() -> &'static [Node]
    ensures listing { result.now ≡ COUNT_NODES }
    ensures well { IsTrue (is_well result.now) }
    ensures spaced { IsTrue (is_spaced result.now) }
    ensures stage { Does place.COUNT (tree result.now) }
{
    &COUNT_NODES
}

/// The listing that says in r19 how many zeros stand before the digits, and in r12 how long the text of a number is. It goes on at PADDING, and behind it at SIGN. r13 and r30 are changed too.
pub fn zeros() -> &'static [Node]
    ensures listing { result.now ≡ ZEROS_NODES }
    ensures well { IsTrue (is_well result.now) }
    ensures spaced { IsTrue (is_spaced result.now) }
    ensures stage { Does place.ZEROS (tree result.now) }
{
    &ZEROS_NODES
}

/// The listing of a byte in r9. It goes on at PADDING, and behind it at SIGN. r8, r10, r12, r15, r19 and r30 are changed.
pub fn byte() -> &'static [Node]
    ensures listing { result.now ≡ BYTE_NODES }
    ensures well { IsTrue (is_well result.now) }
    ensures spaced { IsTrue (is_spaced result.now) }
    ensures stage { Does place.BYTE (tree result.now) }
{
    &BYTE_NODES
}
