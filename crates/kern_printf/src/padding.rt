//! The spaces on either side of a text.
ghost use Rattle.std.specs.Prelude.{◌≡◌, IsTrue};
ghost use Rattle.psx_flow.specs.Well.{is_well};
ghost use Rattle.psx_flow.specs.Spaced.{is_spaced};
ghost use Rattle.kern_stay.specs.Shared.{tree};
ghost use Rattle.kern_printf.specs.Interfaces.{Does};
ghost use Rattle.kern_printf.specs.declared.places.TheConstants as place;
ghost use Rattle.kern_printf.specs.declared.padding.TheConstants.{PADDING_NODES, LEFT_NODES, RIGHT_NODES};

use crate::places;
use crate::places::{FORMAT, LEFT, RIGHT};
use psx_flow::{Node, Test, op, register};

/// r12 is the length of the text, r20 the width, and r18 tells whether the text stands on the left. r13 becomes how many spaces stand before it, r20 how many behind.
pub const PADDING_NODES: [Node; 11] = [
    op!(SLTU r13, r12, r20),
    op!(SUBU r20, r20, r12),
    Node::If(Test::Same(register!(r13), register!(r0))),
    op!(OR r20, r0, r0),
    Node::End,
    op!(OR r13, r0, r0),
    Node::If(Test::Same(register!(r18), register!(r0))),
    op!(OR r13, r0, r20),
    op!(OR r20, r0, r0),
    Node::End,
    Node::Jump(LEFT),
];

/// r13 is how many spaces are to come, and r30 is where the text is written.
pub const LEFT_NODES: [Node; 8] = [
    Node::If(Test::Same(register!(r13), register!(r0))),
    Node::JumpTo(register!(r30)),
    Node::End,
    op!(ADDIU r13, r13, 0xFFFF),
    op!(ADDIU r12, r0, 0x20),
    op!(SW r12, r26, places::PORT_CONSOLE),
    op!(ADDIU r17, r17, 1),
    Node::Jump(LEFT),
];

/// r20 is how many spaces are to come.
pub const RIGHT_NODES: [Node; 8] = [
    Node::If(Test::Same(register!(r20), register!(r0))),
    Node::Jump(FORMAT),
    Node::End,
    op!(ADDIU r20, r20, 0xFFFF),
    op!(ADDIU r12, r0, 0x20),
    op!(SW r12, r26, places::PORT_CONSOLE),
    op!(ADDIU r17, r17, 1),
    Node::Jump(RIGHT),
];

/// The listing that says how many spaces stand before a text whose length is in r12, in r13, and how many behind it, in r20. It goes on at LEFT.
pub fn padding() -> &'static [Node]
    ensures listing { result.now ≡ PADDING_NODES }
    ensures well { IsTrue (is_well result.now) }
    ensures spaced { IsTrue (is_spaced result.now) }
    ensures stage { Does place.PADDING (tree result.now) }
{
    &PADDING_NODES
}

/// The listing that writes the r13 spaces before a text: it comes back once for each. It goes on at the address in r30. r12 and r17 are changed too.
pub fn left() -> &'static [Node]
    ensures listing { result.now ≡ LEFT_NODES }
    ensures well { IsTrue (is_well result.now) }
    ensures spaced { IsTrue (is_spaced result.now) }
    ensures stage { Does place.LEFT (tree result.now) }
{
    &LEFT_NODES
}

/// The listing that writes the r20 spaces behind a text: it comes back once for each. It goes on at FORMAT. r12 and r17 are changed too.
pub fn right() -> &'static [Node]
    ensures listing { result.now ≡ RIGHT_NODES }
    ensures well { IsTrue (is_well result.now) }
    ensures spaced { IsTrue (is_spaced result.now) }
    ensures stage { Does place.RIGHT (tree result.now) }
{
    &RIGHT_NODES
}
