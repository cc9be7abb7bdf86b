//! The walk over the format, outside of a conversion.
ghost use Rattle.std.specs.Prelude.{◌≡◌, IsTrue};
ghost use Rattle.psx_flow.specs.Well.{is_well};
ghost use Rattle.psx_flow.specs.Spaced.{is_spaced};
ghost use Rattle.kern_stay.specs.Shared.{tree};
ghost use Rattle.kern_printf.specs.Interfaces.{Does};
ghost use Rattle.kern_printf.specs.declared.places.TheConstants as place;
ghost use Rattle.kern_printf.specs.declared.format.TheConstants.{PRINTF_NODES, FORMAT_NODES};

use crate::places;
use crate::places::{CONVERSION, FORMAT, ROOM};
use kern_stay::places::{BAD_POINTER, LEAVE};
use psx_flow::{Node, Test, op, register};

/// r4 is the format.
pub const PRINTF_NODES: [Node; 11] = [
    Node::If(Test::Same(register!(r4), register!(r0))),
    op!(OR r2, r0, r0),
    Node::Jump(LEAVE),
    Node::End,
    op!(OR r8, r0, r4),
    Node::Call(ROOM),
    op!(ADDU r14, r8, r9),
    op!(LUI r26, places::PORTS),
    op!(OR r16, r0, r0),
    op!(OR r17, r0, r0),
    Node::Jump(FORMAT),
];

/// A conversion opens with no flags, no width and no precision, and r23 is where its next byte is taken.
pub const FORMAT_NODES: [Node; 24] = [
    Node::If(Test::Same(register!(r4), register!(r14))),
    op!(OR r8, r0, r4),
    Node::Jump(BAD_POINTER),
    Node::End,
    op!(LBU r12, 0(r4)),
    op!(ADDIU r4, r4, 1),
    Node::If(Test::Same(register!(r12), register!(r0))),
    op!(OR r2, r0, r17),
    Node::Jump(LEAVE),
    Node::End,
    op!(ADDIU r10, r0, 0x25),
    Node::If(Test::Same(register!(r12), register!(r10))),
    op!(OR r18, r0, r0),
    op!(OR r19, r0, r0),
    op!(OR r20, r0, r0),
    op!(OR r21, r0, r0),
    op!(OR r22, r0, r0),
    op!(LUI r23, places::CODE),
    op!(ADDIU r23, r23, places::FLAG_LOW),
    Node::Jump(CONVERSION),
    Node::End,
    op!(SW r12, r26, places::PORT_CONSOLE),
    op!(ADDIU r17, r17, 1),
    Node::Jump(FORMAT),
];

/// The listing of A3F, printf(format, ..): it begins the walk over the format. The table's entry leads to it with the format in r4.
/// It ends at LEAVE with 0 in r2 where the format is 0, else it goes on at FORMAT. r8 to r11, r14, r16, r17, r26 and r31 are changed.
pub fn printf() -> &'static [Node]
    ensures listing { result.now ≡ PRINTF_NODES }
    ensures well { IsTrue (is_well result.now) }
    ensures spaced { IsTrue (is_spaced result.now) }
    ensures stage { Does place.PRINTF (tree result.now) }
{
    &PRINTF_NODES
}

/// The listing that takes a byte of the format outside of a conversion, from r4.
/// It ends at LEAVE behind the format's zero, with the number of bytes written in r2; at BAD_POINTER with the address in r8 that isn't user memory; goes on at CONVERSION behind a `%`; or writes the byte, and comes back.
pub fn format() -> &'static [Node]
    ensures listing { result.now ≡ FORMAT_NODES }
    ensures well { IsTrue (is_well result.now) }
    ensures spaced { IsTrue (is_spaced result.now) }
    ensures stage { Does place.FORMAT (tree result.now) }
{
    &FORMAT_NODES
}
