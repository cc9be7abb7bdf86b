//! A text as an argument: how long it is.
ghost use Rattle.std.specs.Prelude.{◌≡◌, IsTrue};
ghost use Rattle.psx_flow.specs.Well.{is_well};
ghost use Rattle.psx_flow.specs.Spaced.{is_spaced};
ghost use Rattle.kern_stay.specs.Shared.{tree};
ghost use Rattle.kern_printf.specs.Interfaces.{Does};
ghost use Rattle.kern_printf.specs.declared.places.TheConstants as place;
ghost use Rattle.kern_printf.specs.declared.text.TheConstants.{TEXT_NODES, NULL_TEXT_NODES, MEASURE_NODES};

use crate::places;
use crate::places::{MEASURE, NULL_TEXT, PADDING, ROOM};
use kern_stay::places::BAD_POINTER;
use psx_flow::{Node, Test, op, register};

/// r9 is the text. r8 becomes the address of its byte that comes, r11 where user memory ends, r10 how many bytes were measured, and r21 how many there are at most.
pub const TEXT_NODES: [Node; 15] = [
    Node::If(Test::Same(register!(r9), register!(r0))),
    Node::Jump(NULL_TEXT),
    Node::End,
    op!(OR r8, r0, r9),
    op!(OR r13, r0, r9),
    Node::Call(ROOM),
    op!(ADDU r11, r8, r9),
    op!(OR r9, r0, r13),
    op!(OR r10, r0, r0),
    op!(LUI r30, places::CODE),
    op!(ADDIU r30, r30, places::TEXT_BYTES_LOW),
    // No text is as long as main memory.
    Node::If(Test::Same(register!(r22), register!(r0))),
    op!(LUI r21, 0x20),
    Node::End,
    Node::Jump(MEASURE),
];

/// `(null)` stands in r9 and r25, its first byte uppermost, and r10 is how many of its bytes are written: at most the precision.
pub const NULL_TEXT_NODES: [Node; 14] = [
    op!(ADDIU r10, r0, 6),
    Node::If(Test::Differ(register!(r22), register!(r0))),
    op!(SLTIU r11, r21, 6),
    Node::If(Test::Differ(register!(r11), register!(r0))),
    op!(OR r10, r0, r21),
    Node::End,
    Node::End,
    op!(OR r12, r0, r10),
    op!(LUI r9, 0x286E),
    op!(ADDIU r9, r9, 0x756C),
    op!(LUI r25, 0x6C29),
    op!(LUI r30, places::CODE),
    op!(ADDIU r30, r30, places::NULL_BYTES_LOW),
    Node::Jump(PADDING),
];

/// The r10 bytes before r8 are user memory and not 0, and those up to r11 are user memory.
pub const MEASURE_NODES: [Node; 15] = [
    Node::If(Test::Same(register!(r10), register!(r21))),
    op!(OR r12, r0, r10),
    Node::Jump(PADDING),
    Node::End,
    Node::If(Test::Same(register!(r8), register!(r11))),
    Node::Jump(BAD_POINTER),
    Node::End,
    op!(LBU r12, 0(r8)),
    op!(ADDIU r8, r8, 1),
    Node::If(Test::Same(register!(r12), register!(r0))),
    op!(OR r12, r0, r10),
    Node::Jump(PADDING),
    Node::End,
    op!(ADDIU r10, r10, 1),
    Node::Jump(MEASURE),
];

/// The listing of a text in r9. It goes on at NULL_TEXT where that is 0, else at MEASURE, with its user memory's end in r11 and the most of its bytes in r21.
/// r8, r10, r13, r30 and r31 are changed too.
pub fn text() -> &'static [Node]
    ensures listing { result.now ≡ TEXT_NODES }
    ensures well { IsTrue (is_well result.now) }
    ensures spaced { IsTrue (is_spaced result.now) }
    ensures stage { Does place.TEXT (tree result.now) }
{
    &TEXT_NODES
}

/// The listing of the text that stands for one at 0. It goes on at PADDING, and behind it at NULL_BYTES. r9 to r12, r25 and r30 are changed.
pub fn null_text() -> &'static [Node]
    ensures listing { result.now ≡ NULL_TEXT_NODES }
    ensures well { IsTrue (is_well result.now) }
    ensures spaced { IsTrue (is_spaced result.now) }
    ensures stage { Does place.NULL_TEXT (tree result.now) }
{
    &NULL_TEXT_NODES
}

/// The listing that measures a text up to its zero, or up to the most of its bytes: it comes back once a byte.
/// It goes on at PADDING, and behind it at the address in r30, with its length in r10 and r12; or ends at BAD_POINTER with the address in r8 that isn't user memory.
pub fn measure() -> &'static [Node]
    ensures listing { result.now ≡ MEASURE_NODES }
    ensures well { IsTrue (is_well result.now) }
    ensures spaced { IsTrue (is_spaced result.now) }
    ensures stage { Does place.MEASURE (tree result.now) }
{
    &MEASURE_NODES
}
