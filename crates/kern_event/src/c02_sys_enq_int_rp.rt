//! An element is put in a chain.
ghost use Rattle.std.specs.Prelude.{◌≡◌, IsTrue, IfSome};
ghost use Rattle.psx_flow.specs.Reading.{tree_of};
ghost use Rattle.psx_flow.specs.Well.{is_well};
ghost use Rattle.psx_flow.specs.Spaced.{is_spaced};
ghost use Rattle.abs_kernel.specs.declared.calls.CallId.TheVariants.{C02};
ghost use Rattle.abs_kernel.specs.Calls.{call};
ghost use Rattle.kern_stay.specs.Doors.{Serves, most_steps};
ghost use Rattle.kern_event.specs.Own.{own};
ghost use Rattle.kern_event.specs.declared.c02_sys_enq_int_rp.TheConstants.{NODES};
ghost use Rattle.kern_event.specs.declared.places.TheConstants.{SYS_ENQ_INT_RP};

use crate::places;
use crate::places::ROOM;
use kern_stay::places::{BAD_POINTER, LEAVE};
use psx_flow::{Node, Test, op, register};

/// r4 is the chain's number and r5 the element. r11 is how many elements the chain has, r10 its address less that of the first chain, r13 so much more than its elements take, and r12 its head.
pub const NODES: [Node; 34] = [
    op!(SLTIU r10, r4, places::CHAIN_COUNT),
    Node::If(Test::Differ(register!(r10), register!(r0))),
    // The element's 12 bytes are to be user memory, from a multiple of 4 on. No range of user memory ends elsewhere.
    op!(SLL r10, r5, 30),
    op!(OR r8, r0, r5),
    Node::If(Test::Differ(register!(r10), register!(r0))),
    Node::Jump(BAD_POINTER),
    Node::End,
    Node::Call(ROOM),
    op!(SLTIU r10, r9, 12),
    Node::If(Test::Differ(register!(r10), register!(r0))),
    op!(ADDU r8, r8, r9),
    Node::Jump(BAD_POINTER),
    Node::End,
    op!(LUI r14, places::DATA),
    op!(SLL r10, r4, 6),
    op!(ADDU r10, r10, r14),
    op!(LW r11, r10, places::CHAINS),
    op!(NOP),
    op!(SLTIU r12, r11, places::MOST_ELEMENTS),
    Node::If(Test::Differ(register!(r12), register!(r0))),
    op!(SLL r13, r11, 2),
    op!(ADDU r13, r13, r10),
    // Of an empty chain this is the count, 0.
    op!(LW r12, r13, places::CHAINS),
    op!(NOP),
    op!(SW r12, 0(r5)),
    op!(SW r5, r13, places::ELEMENTS),
    op!(ADDIU r11, r11, 1),
    op!(SW r11, r10, places::CHAINS),
    op!(OR r2, r0, r0),
    Node::Jump(LEAVE),
    Node::End,
    Node::End,
    op!(ADDIU r2, r0, 0xFFFF),
    Node::Jump(LEAVE),
];

/// The listing of C02, SysEnqIntRP(p, e), by which the element at e becomes the head of chain p. The table's entry leads to it with p in r4 and e in r5.
/// It ends at LEAVE with 0 in r2, or with FFFFFFFFh where there is no chain p or no room in it; or at BAD_POINTER with the first address in r8 at which the element has no word of user memory.
/// r8 to r14 and r31 are changed too.
pub fn sys_enq_int_rp() -> &'static [Node]
    ensures listing { result.now ≡ NODES }
    ensures well { IsTrue (is_well result.now) }
    ensures spaced { IsTrue (is_spaced result.now) }
    ensures serves { IfSome (tree_of result.now) (λ tree. Serves own most_steps (call C02) SYS_ENQ_INT_RP tree) }
{
    &NODES
}
