//! Bytes of user memory are copied as they were.
ghost use Rattle.std.specs.Prelude.{◌≡◌, IsTrue, IfSome};
ghost use Rattle.psx_flow.specs.Reading.{tree_of};
ghost use Rattle.psx_flow.specs.Well.{is_well};
ghost use Rattle.psx_flow.specs.Spaced.{is_spaced};
ghost use Rattle.abs_kernel.specs.declared.calls.CallId.TheVariants.{A2C};
ghost use Rattle.abs_kernel.specs.Calls.{call};
ghost use Rattle.kern_stay.specs.Doors.{Serves, most_steps};
ghost use Rattle.kern_mem.specs.Own.{own};
ghost use Rattle.kern_mem.specs.declared.a2c_memmove.TheConstants.{NODES};
ghost use Rattle.kern_mem.specs.declared.places.TheConstants.{MEMMOVE};

use crate::places::ROOM;
use kern_stay::places::{BAD_POINTER, LEAVE};
use psx_flow::{Node, Test, op, register};

/// r4 is the destination, r5 the source, r6 the count. r8 is the address of the byte that is read next, r9 that of the byte that is written next.
/// They rise or fall by r10, and r11 is where r8 comes to an end.
pub const NODES: [Node; 49] = [
    Node::If(Test::Same(register!(r4), register!(r0))),
    op!(OR r2, r0, r0),
    Node::Jump(LEAVE),
    Node::End,
    Node::If(Test::Same(register!(r5), register!(r0))),
    op!(OR r2, r0, r0),
    Node::Jump(LEAVE),
    Node::End,
    Node::If(Test::NotAbove(register!(r6))),
    op!(OR r2, r0, r4),
    Node::Jump(LEAVE),
    Node::End,
    // All of the source, then all of the destination is to be user memory.
    op!(OR r8, r0, r5),
    Node::Call(ROOM),
    op!(SLTU r10, r9, r6),
    Node::If(Test::Differ(register!(r10), register!(r0))),
    op!(ADDU r8, r8, r9),
    Node::Jump(BAD_POINTER),
    Node::End,
    op!(OR r8, r0, r4),
    Node::Call(ROOM),
    op!(SLTU r10, r9, r6),
    Node::If(Test::Differ(register!(r10), register!(r0))),
    op!(ADDU r8, r8, r9),
    Node::Jump(BAD_POINTER),
    Node::End,
    op!(OR r8, r0, r5),
    op!(OR r9, r0, r4),
    op!(ADDU r11, r5, r6),
    op!(ADDIU r10, r0, 1),
    // Without its segment the destination's address is above the source's: the bytes are copied from the last to the first.
    op!(SLL r12, r5, 3),
    op!(SLL r13, r4, 3),
    op!(SLTU r12, r12, r13),
    Node::If(Test::Differ(register!(r12), register!(r0))),
    op!(ADDU r8, r5, r6),
    op!(ADDU r9, r4, r6),
    op!(ADDIU r8, r8, 0xFFFF),
    op!(ADDIU r9, r9, 0xFFFF),
    op!(ADDIU r11, r5, 0xFFFF),
    op!(ADDIU r10, r0, 0xFFFF),
    Node::End,
    // The bytes that r8 has left are copied, and no other byte is changed.
    Node::While(Test::Differ(register!(r8), register!(r11))),
    op!(LBU r12, 0(r8)),
    op!(ADDU r8, r8, r10),
    op!(SB r12, 0(r9)),
    op!(ADDU r9, r9, r10),
    Node::End,
    op!(OR r2, r0, r4),
    Node::Jump(LEAVE),
];

/// The listing of A2C, memmove(d, s, n), which copies n bytes as they were. The table's entry leads to it with d in r4, s in r5 and n in r6.
/// It ends at LEAVE with d in r2, or with 0 where d or s is 0; or at BAD_POINTER with the first address in r8 that isn't user memory, of s or else of d, and no byte written.
/// r8 to r13 and r31 are changed too.
pub fn memmove() -> &'static [Node]
    ensures listing { result.now ≡ NODES }
    ensures well { IsTrue (is_well result.now) }
    ensures spaced { IsTrue (is_spaced result.now) }
    ensures serves { IfSome (tree_of result.now) (λ tree. Serves own most_steps (call A2C) MEMMOVE tree) }
{
    &NODES
}
