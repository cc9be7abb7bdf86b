//! A byte within a conversion: a flag, a digit of the width or of the precision, the point, or an `l`.
ghost use Rattle.std.specs.Prelude.{◌≡◌, IsTrue};
ghost use Rattle.psx_flow.specs.Well.{is_well};
ghost use Rattle.psx_flow.specs.Spaced.{is_spaced};
ghost use Rattle.kern_stay.specs.Shared.{tree};
ghost use Rattle.kern_printf.specs.Interfaces.{Does};
ghost use Rattle.kern_printf.specs.declared.places.TheConstants as place;
ghost use Rattle.kern_printf.specs.declared.conversion.TheConstants.{CONVERSION_NODES, FLAG_NODES, WIDTH_NODES, PRECISION_NODES, LENGTH_NODES};

use crate::places;
use crate::places::{CONVERSION, KIND, LENGTH, WIDTH};
use kern_stay::places::{BAD_POINTER, LEAVE};
use psx_flow::{Node, Test, op, register};

/// r23 is where the byte is taken.
pub const CONVERSION_NODES: [Node; 11] = [
    Node::If(Test::Same(register!(r4), register!(r14))),
    op!(OR r8, r0, r4),
    Node::Jump(BAD_POINTER),
    Node::End,
    op!(LBU r12, 0(r4)),
    op!(ADDIU r4, r4, 1),
    Node::If(Test::Same(register!(r12), register!(r0))),
    op!(OR r2, r0, r17),
    Node::Jump(LEAVE),
    Node::End,
    Node::JumpTo(register!(r23)),
];

/// A `-` or a `0`.
pub const FLAG_NODES: [Node; 11] = [
    op!(ADDIU r10, r0, 0x2D),
    Node::If(Test::Same(register!(r12), register!(r10))),
    op!(ADDIU r18, r0, 1),
    Node::Jump(CONVERSION),
    Node::End,
    op!(ADDIU r10, r0, 0x30),
    Node::If(Test::Same(register!(r12), register!(r10))),
    op!(ADDIU r19, r0, 1),
    Node::Jump(CONVERSION),
    Node::End,
    Node::Jump(WIDTH),
];

/// A digit, by which the width becomes at most 255; or the point, behind which the precision is 0.
pub const WIDTH_NODES: [Node; 26] = [
    op!(SLTIU r10, r12, 0x30),
    op!(SLTIU r11, r12, 0x3A),
    op!(SLTU r10, r10, r11),
    Node::If(Test::Differ(register!(r10), register!(r0))),
    op!(LUI r23, places::CODE),
    op!(ADDIU r23, r23, places::WIDTH_LOW),
    op!(SLL r10, r20, 3),
    op!(SLL r11, r20, 1),
    op!(ADDU r20, r10, r11),
    op!(ADDU r20, r20, r12),
    op!(ADDIU r20, r20, 0xFFD0),
    op!(SLTIU r10, r20, 256),
    Node::If(Test::Same(register!(r10), register!(r0))),
    op!(ADDIU r20, r0, 255),
    Node::End,
    Node::Jump(CONVERSION),
    Node::End,
    op!(ADDIU r10, r0, 0x2E),
    Node::If(Test::Same(register!(r12), register!(r10))),
    op!(LUI r23, places::CODE),
    op!(ADDIU r23, r23, places::PRECISION_LOW),
    op!(OR r21, r0, r0),
    op!(ADDIU r22, r0, 1),
    Node::Jump(CONVERSION),
    Node::End,
    Node::Jump(LENGTH),
];

/// A digit, by which the precision becomes at most 255.
pub const PRECISION_NODES: [Node; 17] = [
    op!(SLTIU r10, r12, 0x30),
    op!(SLTIU r11, r12, 0x3A),
    op!(SLTU r10, r10, r11),
    Node::If(Test::Differ(register!(r10), register!(r0))),
    op!(ADDIU r22, r0, 1),
    op!(SLL r10, r21, 3),
    op!(SLL r11, r21, 1),
    op!(ADDU r21, r10, r11),
    op!(ADDU r21, r21, r12),
    op!(ADDIU r21, r21, 0xFFD0),
    op!(SLTIU r10, r21, 256),
    Node::If(Test::Same(register!(r10), register!(r0))),
    op!(ADDIU r21, r0, 255),
    Node::End,
    Node::Jump(CONVERSION),
    Node::End,
    Node::Jump(LENGTH),
];

/// An `l`.
pub const LENGTH_NODES: [Node; 7] = [
    op!(ADDIU r10, r0, 0x6C),
    Node::If(Test::Same(register!(r12), register!(r10))),
    op!(LUI r23, places::CODE),
    op!(ADDIU r23, r23, places::LENGTH_LOW),
    Node::Jump(CONVERSION),
    Node::End,
    Node::Jump(KIND),
];

/// The listing that takes a byte of the format within a conversion, from r4 into r12.
/// It ends at LEAVE behind the format's zero, with the number of bytes written in r2, or at BAD_POINTER with the address in r8 that isn't user memory; else it goes on at the address in r23.
pub fn conversion() -> &'static [Node]
    ensures listing { result.now ≡ CONVERSION_NODES }
    ensures well { IsTrue (is_well result.now) }
    ensures spaced { IsTrue (is_spaced result.now) }
    ensures stage { Does place.CONVERSION (tree result.now) }
{
    &CONVERSION_NODES
}

/// The listing for a byte in r12 that may be a flag. It goes on at CONVERSION behind a flag, else at WIDTH. r10 is changed, and behind a flag r18 or r19 becomes 1.
pub fn flag() -> &'static [Node]
    ensures listing { result.now ≡ FLAG_NODES }
    ensures well { IsTrue (is_well result.now) }
    ensures spaced { IsTrue (is_spaced result.now) }
    ensures stage { Does place.FLAG (tree result.now) }
{
    &FLAG_NODES
}

/// The listing for a byte in r12 that may be a digit of the width, or the point. It goes on at CONVERSION behind one, else at LENGTH. r10 and r11 are changed, and r20, or r21 and r22, and r23.
pub fn width() -> &'static [Node]
    ensures listing { result.now ≡ WIDTH_NODES }
    ensures well { IsTrue (is_well result.now) }
    ensures spaced { IsTrue (is_spaced result.now) }
    ensures stage { Does place.WIDTH (tree result.now) }
{
    &WIDTH_NODES
}

/// The listing for a byte in r12 that may be a digit of the precision. It goes on at CONVERSION behind one, else at LENGTH. r10 and r11 are changed, and r21 and r22.
pub fn precision() -> &'static [Node]
    ensures listing { result.now ≡ PRECISION_NODES }
    ensures well { IsTrue (is_well result.now) }
    ensures spaced { IsTrue (is_spaced result.now) }
    ensures stage { Does place.PRECISION (tree result.now) }
{
    &PRECISION_NODES
}

/// The listing for a byte in r12 that may be an `l`. It goes on at CONVERSION behind one, else at KIND. r10 and r23 are changed.
pub fn length() -> &'static [Node]
    ensures listing { result.now ≡ LENGTH_NODES }
    ensures well { IsTrue (is_well result.now) }
    ensures spaced { IsTrue (is_spaced result.now) }
    ensures stage { Does place.LENGTH (tree result.now) }
{
    &LENGTH_NODES
}
