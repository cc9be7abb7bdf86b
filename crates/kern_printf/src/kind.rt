//! The byte that ends a conversion, and its argument.
ghost use Rattle.std.specs.Prelude.{◌≡◌, IsTrue};
ghost use Rattle.psx_flow.specs.Well.{is_well};
ghost use Rattle.psx_flow.specs.Spaced.{is_spaced};
ghost use Rattle.kern_stay.specs.Shared.{tree};
ghost use Rattle.kern_printf.specs.Interfaces.{Does};
ghost use Rattle.kern_printf.specs.declared.places.TheConstants as place;
ghost use Rattle.kern_printf.specs.declared.kind.TheConstants.{KIND_NODES, ARGUMENT_NODES};

use crate::places;
use crate::places::{ARGUMENT, FORMAT};
use kern_stay::places::{BAD_POINTER, READ_WORD};
use psx_flow::{Node, Test, op, register};

/// For a number r15 tells whether it has a sign, r24 is its base, and r25 stands for its digits above 9: their letter less 10. r30 is where the argument is for.
pub const KIND_NODES: [Node; 46] = [
    op!(LUI r23, places::CODE),
    op!(ADDIU r30, r23, places::NUMBER_LOW),
    op!(ADDIU r24, r0, 10),
    op!(ADDIU r25, r0, 0x57),
    op!(ADDIU r15, r0, 1),
    op!(ADDIU r10, r0, 0x64),
    Node::If(Test::Same(register!(r12), register!(r10))),
    Node::Jump(ARGUMENT),
    Node::End,
    op!(ADDIU r10, r0, 0x69),
    Node::If(Test::Same(register!(r12), register!(r10))),
    Node::Jump(ARGUMENT),
    Node::End,
    op!(OR r15, r0, r0),
    op!(ADDIU r10, r0, 0x75),
    Node::If(Test::Same(register!(r12), register!(r10))),
    Node::Jump(ARGUMENT),
    Node::End,
    op!(ADDIU r24, r0, 8),
    op!(ADDIU r10, r0, 0x6F),
    Node::If(Test::Same(register!(r12), register!(r10))),
    Node::Jump(ARGUMENT),
    Node::End,
    op!(ADDIU r24, r0, 16),
    op!(ADDIU r10, r0, 0x78),
    Node::If(Test::Same(register!(r12), register!(r10))),
    Node::Jump(ARGUMENT),
    Node::End,
    op!(ADDIU r25, r0, 0x37),
    op!(ADDIU r10, r0, 0x58),
    Node::If(Test::Same(register!(r12), register!(r10))),
    Node::Jump(ARGUMENT),
    Node::End,
    op!(ADDIU r30, r23, places::BYTE_LOW),
    op!(ADDIU r10, r0, 0x63),
    Node::If(Test::Same(register!(r12), register!(r10))),
    Node::Jump(ARGUMENT),
    Node::End,
    op!(ADDIU r30, r23, places::TEXT_LOW),
    op!(ADDIU r10, r0, 0x73),
    Node::If(Test::Same(register!(r12), register!(r10))),
    Node::Jump(ARGUMENT),
    Node::End,
    op!(SW r12, r26, places::PORT_CONSOLE),
    op!(ADDIU r17, r17, 1),
    Node::Jump(FORMAT),
];

/// r16 is how many arguments were taken, and r9 becomes the next one.
pub const ARGUMENT_NODES: [Node; 23] = [
    op!(SLTIU r10, r16, 3),
    Node::If(Test::Same(register!(r10), register!(r0))),
    op!(SLL r8, r16, 2),
    op!(ADDIU r8, r8, 4),
    op!(ADDU r8, r8, r29),
    Node::Call(READ_WORD),
    Node::If(Test::Same(register!(r10), register!(r0))),
    Node::Jump(BAD_POINTER),
    Node::End,
    op!(SLL r9, r9, 0),
    op!(ADDIU r16, r16, 1),
    Node::JumpTo(register!(r30)),
    Node::End,
    op!(OR r9, r0, r5),
    Node::If(Test::Differ(register!(r16), register!(r0))),
    op!(OR r9, r0, r6),
    op!(ADDIU r10, r0, 1),
    Node::If(Test::Differ(register!(r16), register!(r10))),
    op!(OR r9, r0, r7),
    Node::End,
    Node::End,
    op!(ADDIU r16, r16, 1),
    Node::JumpTo(register!(r30)),
];

/// The listing for a byte in r12 that ends a conversion.
/// It goes on at ARGUMENT where it takes one, with the conversion's kind in r15, r24, r25 and r30; else it writes the byte, and goes on at FORMAT. r10 and r23 are changed too.
pub fn kind() -> &'static [Node]
    ensures listing { result.now ≡ KIND_NODES }
    ensures well { IsTrue (is_well result.now) }
    ensures spaced { IsTrue (is_spaced result.now) }
    ensures stage { Does place.KIND (tree result.now) }
{
    &KIND_NODES
}

/// The listing that takes an argument into r9: r5, r6, r7, then the words from r29 + 16 on.
/// It goes on at the address in r30, or ends at BAD_POINTER with the address in r8 at which no word of user memory stands.
/// r10 is changed, and r8, r11, r12 and r31 where a word is read.
pub fn argument() -> &'static [Node]
    ensures listing { result.now ≡ ARGUMENT_NODES }
    ensures well { IsTrue (is_well result.now) }
    ensures spaced { IsTrue (is_spaced result.now) }
    ensures stage { Does place.ARGUMENT (tree result.now) }
{
    &ARGUMENT_NODES
}
