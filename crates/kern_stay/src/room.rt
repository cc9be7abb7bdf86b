//! How many bytes from an address on are user memory.
ghost use Rattle.std.specs.Prelude.{◌≡◌, IsTrue, IfSome};
ghost use Rattle.psx_flow.specs.Reading.{tree_of};
ghost use Rattle.psx_flow.specs.Well.{is_well};
ghost use Rattle.psx_flow.specs.Spaced.{is_spaced};
ghost use Rattle.kern_stay.specs.declared.room.TheConstants.{ROOM_NODES};
ghost use Rattle.kern_stay.specs.Room.{GivesRoom, RoomIsLeft};

use psx_flow::{Node, Test, op, register};

/// r8 is an address, r9 becomes the number of bytes. r10 and r11 are changed. The cached segment's main memory, where most programs have their data, comes first.
pub const ROOM_NODES: [Node; 39] = [
    op!(LUI r10, 0x8001),
    op!(SUBU r10, r8, r10),
    op!(LUI r11, 0x001F),
    op!(SLTU r9, r10, r11),
    Node::If(Test::Differ(register!(r9), register!(r0))),
    op!(SUBU r9, r11, r10),
    Node::JumpTo(register!(r31)),
    Node::End,
    op!(LUI r10, 0x0001),
    op!(SUBU r10, r8, r10),
    op!(SLTU r9, r10, r11),
    Node::If(Test::Differ(register!(r9), register!(r0))),
    op!(SUBU r9, r11, r10),
    Node::JumpTo(register!(r31)),
    Node::End,
    op!(LUI r10, 0xA001),
    op!(SUBU r10, r8, r10),
    op!(SLTU r9, r10, r11),
    Node::If(Test::Differ(register!(r9), register!(r0))),
    op!(SUBU r9, r11, r10),
    Node::JumpTo(register!(r31)),
    Node::End,
    // The scratchpad.
    op!(ADDIU r11, r0, 0x0400),
    op!(LUI r10, 0x1F80),
    op!(SUBU r10, r8, r10),
    op!(SLTU r9, r10, r11),
    Node::If(Test::Differ(register!(r9), register!(r0))),
    op!(SUBU r9, r11, r10),
    Node::JumpTo(register!(r31)),
    Node::End,
    op!(LUI r10, 0x9F80),
    op!(SUBU r10, r8, r10),
    op!(SLTU r9, r10, r11),
    Node::If(Test::Differ(register!(r9), register!(r0))),
    op!(SUBU r9, r11, r10),
    Node::JumpTo(register!(r31)),
    Node::End,
    op!(OR r9, r0, r0),
    Node::JumpTo(register!(r31)),
];

/// The listing that gives r9 the number of bytes of user memory from the address in r8 on, 0 where it is none. It comes back to r31. Each crate whose routines call it places one in its range.
pub fn room() -> &'static [Node]
    ensures listing { result.now ≡ ROOM_NODES }
    ensures well { IsTrue (is_well result.now) }
    ensures spaced { IsTrue (is_spaced result.now) }
    ensures serves { IfSome (tree_of result.now) (λ tree. GivesRoom tree) }
{
    &ROOM_NODES
}

/// What the number is: so many bytes from there on are user memory, and the byte behind them isn't. It does nothing.
pub fn room_is_left()
    ensures { RoomIsLeft }
{}
