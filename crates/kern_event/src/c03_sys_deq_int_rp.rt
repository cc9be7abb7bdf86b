//! An element is taken out of a chain.
ghost use Rattle.std.specs.Prelude.{◌≡◌, IsTrue, IfSome, []};
ghost use Rattle.psx_flow.specs.Reading.{tree_of};
ghost use Rattle.psx_flow.specs.Well.{is_well};
ghost use Rattle.psx_flow.specs.Spaced.{is_spaced};
ghost use Rattle.abs_kernel.specs.declared.calls.CallId.TheVariants.{C03};
ghost use Rattle.abs_kernel.specs.Calls.{call};
ghost use Rattle.kern_stay.specs.Doors.{Serves, most_steps};
ghost use Rattle.kern_event.specs.declared.c03_sys_deq_int_rp.TheConstants.{NODES};
ghost use Rattle.kern_event.specs.declared.places.TheConstants.{SYS_DEQ_INT_RP};

use crate::places;
use kern_stay::places::LEAVE;
use psx_flow::{Node, Test, op, register};

/// r4 is the chain's number and r5 the element. r8 is the address of the count, r11 the count, r13 the address of the head, and r9 that of the element which comes next.
/// r12 is the element before that one, and at first another than r5.
pub const NODES: [Node; 33] = [
    op!(SLTIU r10, r4, places::CHAIN_COUNT),
    Node::If(Test::Same(register!(r10), register!(r0))),
    op!(ADDIU r2, r0, 0xFFFF),
    Node::Jump(LEAVE),
    Node::End,
    op!(LUI r14, places::DATA),
    op!(SLL r10, r4, 6),
    op!(ADDU r10, r10, r14),
    op!(ADDIU r8, r10, places::CHAINS),
    op!(LW r11, 0(r8)),
    op!(ADDIU r12, r5, 1),
    op!(SLL r13, r11, 2),
    op!(ADDU r13, r13, r8),
    op!(OR r9, r0, r13),
    // The elements before the one in r12 aren't r5.
    Node::While(Test::Differ(register!(r12), register!(r5))),
    Node::If(Test::Same(register!(r9), register!(r8))),
    op!(ADDIU r2, r0, 0xFFFF),
    Node::Jump(LEAVE),
    Node::End,
    op!(LW r12, 0(r9)),
    op!(ADDIU r9, r9, 0xFFFC),
    Node::End,
    op!(ADDIU r9, r9, 4),
    // The elements before it move on by a word, the last of them first.
    Node::While(Test::Differ(register!(r9), register!(r13))),
    op!(LW r12, 4(r9)),
    op!(NOP),
    op!(SW r12, 0(r9)),
    op!(ADDIU r9, r9, 4),
    Node::End,
    op!(ADDIU r11, r11, 0xFFFF),
    op!(SW r11, 0(r8)),
    op!(OR r2, r0, r0),
    Node::Jump(LEAVE),
];

/// The listing of C03, SysDeqIntRP(p, e), which takes the first element of chain p that is e out. The table's entry leads to it with p in r4 and e in r5.
/// It ends at LEAVE with 0 in r2, or with FFFFFFFFh where there is none. r8 to r14 are changed too.
pub fn sys_deq_int_rp() -> &'static [Node]
    ensures listing { result.now ≡ NODES }
    ensures well { IsTrue (is_well result.now) }
    ensures spaced { IsTrue (is_spaced result.now) }
    ensures serves { IfSome (tree_of result.now) (λ tree. Serves [] most_steps (call C03) SYS_DEQ_INT_RP tree) }
{
    &NODES
}
