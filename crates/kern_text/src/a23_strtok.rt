//! The next token of a text.
ghost use Rattle.std.specs.Prelude.{◌≡◌, IsTrue, IfSome};
ghost use Rattle.psx_flow.specs.Reading.{tree_of};
ghost use Rattle.psx_flow.specs.Well.{is_well};
ghost use Rattle.psx_flow.specs.Spaced.{is_spaced};
ghost use Rattle.abs_kernel.specs.declared.calls.CallId.TheVariants.{A23};
ghost use Rattle.abs_kernel.specs.Calls.{call};
ghost use Rattle.kern_stay.specs.Doors.{Serves, most_steps};
ghost use Rattle.kern_text.specs.SetOwn.{set_own};
ghost use Rattle.kern_text.specs.declared.a23_strtok.TheConstants.{NODES};
ghost use Rattle.kern_text.specs.declared.places.TheConstants.{STRTOK};

use crate::places::{ROOM, SKIP};
use kern_layout::places::TOKEN;
use kern_stay::places::{BAD_POINTER, LEAVE};
use psx_flow::{Node, Test, op, register};

/// r4 is the text, or 0 for the kept place, and r5 the set. r14 and r15 are where their user memory ends; r13 tells SKIP which bytes to pass over.
pub const NODES: [Node; 45] = [
    op!(OR r2, r0, r0),
    Node::If(Test::Same(register!(r5), register!(r0))),
    Node::Jump(LEAVE),
    Node::End,
    Node::If(Test::Same(register!(r4), register!(r0))),
    op!(LUI r8, 0x8001),
    op!(LW r4, r8, TOKEN as u16),
    op!(NOP),
    op!(ADDU r4, r4, r0),
    Node::End,
    Node::If(Test::Same(register!(r4), register!(r0))),
    Node::Jump(LEAVE),
    Node::End,
    op!(OR r8, r0, r5),
    Node::Call(ROOM),
    op!(ADDU r15, r8, r9),
    op!(OR r8, r0, r4),
    Node::Call(ROOM),
    op!(ADDU r14, r8, r9),
    op!(ADDIU r13, r0, 1),
    Node::Call(SKIP),
    Node::If(Test::Same(register!(r10), register!(r0))),
    Node::Jump(BAD_POINTER),
    Node::End,
    Node::If(Test::Same(register!(r12), register!(r0))),
    op!(LUI r9, 0x8001),
    op!(SW r0, r9, TOKEN as u16),
    Node::Jump(LEAVE),
    Node::End,
    op!(OR r2, r0, r8),
    op!(ADDIU r8, r8, 1),
    op!(OR r13, r0, r0),
    Node::Call(SKIP),
    Node::If(Test::Same(register!(r10), register!(r0))),
    Node::Jump(BAD_POINTER),
    Node::End,
    op!(LUI r9, 0x8001),
    Node::If(Test::Same(register!(r12), register!(r0))),
    op!(SW r0, r9, TOKEN as u16),
    Node::Jump(LEAVE),
    Node::End,
    op!(SB r0, 0(r8)),
    op!(ADDIU r8, r8, 1),
    op!(SW r8, r9, TOKEN as u16),
    Node::Jump(LEAVE),
];

/// The listing of A23, strtok(s, set), which finds the next run of bytes that aren't in set. The table's entry leads to it with s in r4 and set in r5.
/// It ends at LEAVE with the address of that run in r2, or with 0 where there is none, or where set, or s and the place, are 0; or at BAD_POINTER with the first address in r8 that isn't user memory.
/// r4, r8 to r15, r24, r25 and r31 are changed too.
pub fn strtok() -> &'static [Node]
    ensures listing { result.now ≡ NODES }
    ensures well { IsTrue (is_well result.now) }
    ensures spaced { IsTrue (is_spaced result.now) }
    ensures serves { IfSome (tree_of result.now) (λ tree. Serves set_own most_steps (call A23) STRTOK tree) }
{
    &NODES
}
