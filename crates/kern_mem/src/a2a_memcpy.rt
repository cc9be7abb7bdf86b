//! Bytes of user memory are copied.
ghost use Rattle.std.specs.Prelude.{◌≡◌, IsTrue, IfSome};
ghost use Rattle.psx_flow.specs.Reading.{tree_of};
ghost use Rattle.psx_flow.specs.Well.{is_well};
ghost use Rattle.psx_flow.specs.Spaced.{is_spaced};
ghost use Rattle.abs_kernel.specs.declared.calls.CallId.TheVariants.{A27, A2A};
ghost use Rattle.abs_kernel.specs.Calls.{call};
ghost use Rattle.kern_stay.specs.Doors.{Serves, most_steps};
ghost use Rattle.kern_mem.specs.Own.{own};
ghost use Rattle.kern_mem.specs.declared.a2a_memcpy.TheConstants.{NODES, BCOPY_NODES};
ghost use Rattle.kern_mem.specs.declared.places.TheConstants.{MEMCPY, BCOPY};

use crate::places::ROOM;
use kern_stay::places::{BAD_POINTER, LEAVE};
use psx_flow::{Node, Test, op, register};

// r4 is the destination, r5 the source, r6 the count. r8 is the address of the byte that is read next, r11 where these end, and r9 that of the byte that is written next.
// r10 is 1 where user memory ends before the count does, and r13 is 1 where the destination's room is less than the source's.
// The nodes before these put them there.
macro_rules! copying {
    ($($before:expr,)*) => {
        [
            $($before,)*
            Node::If(Test::Same(register!(r4), register!(r0))),
            op!(OR r2, r0, r0),
            Node::Jump(LEAVE),
            Node::End,
            Node::If(Test::Same(register!(r5), register!(r0))),
            op!(OR r2, r0, r0),
            Node::Jump(LEAVE),
            Node::End,
            Node::If(Test::NotAbove(register!(r6))),
            op!(OR r2, r0, r4),
            Node::Jump(LEAVE),
            Node::End,
            op!(OR r8, r0, r4),
            Node::Call(ROOM),
            op!(OR r12, r0, r9),
            op!(OR r8, r0, r5),
            Node::Call(ROOM),
            op!(SLTU r13, r12, r9),
            Node::If(Test::Differ(register!(r13), register!(r0))),
            op!(OR r9, r0, r12),
            Node::End,
            op!(SLTU r10, r9, r6),
            Node::If(Test::Same(register!(r10), register!(r0))),
            op!(OR r9, r0, r6),
            Node::End,
            op!(ADDU r11, r8, r9),
            op!(OR r9, r0, r4),
            // The bytes up to r8 are copied, to those up to r9, and those up to r11 are user memory, and so are as many from r9 on.
            Node::While(Test::Differ(register!(r8), register!(r11))),
            op!(LBU r12, 0(r8)),
            op!(ADDIU r8, r8, 1),
            op!(SB r12, 0(r9)),
            op!(ADDIU r9, r9, 1),
            Node::End,
            Node::If(Test::Differ(register!(r10), register!(r0))),
            // The source is bad, or the destination alone is.
            Node::If(Test::Differ(register!(r13), register!(r0))),
            op!(OR r8, r0, r9),
            Node::End,
            Node::Jump(BAD_POINTER),
            Node::End,
            op!(OR r2, r0, r4),
            Node::Jump(LEAVE),
        ]
    };
}

/// The arguments stand in their registers.
pub const NODES: [Node; 41] = copying!();

/// Source and destination are exchanged first.
pub const BCOPY_NODES: [Node; 44] = copying!(
    op!(OR r8, r0, r4),
    op!(OR r4, r0, r5),
    op!(OR r5, r0, r8),
);

/// The listing of A2A, memcpy(d, s, n), which copies n bytes one by one, each source byte read before its destination byte is written. The table's entry leads to it with d in r4, s in r5 and n in r6.
/// It ends at LEAVE with d in r2, or with 0 where d or s is 0; or at BAD_POINTER with the first address in r8 that isn't user memory, and the bytes before it copied.
/// r8 to r13 and r31 are changed too.
pub fn memcpy() -> &'static [Node]
    ensures listing { result.now ≡ NODES }
    ensures well { IsTrue (is_well result.now) }
    ensures spaced { IsTrue (is_spaced result.now) }
    ensures serves { IfSome (tree_of result.now) (λ tree. Serves own most_steps (call A2A) MEMCPY tree) }
{
    &NODES
}

/// The listing of A27, bcopy(s, d, n), which copies as memcpy does. The table's entry leads to it with s in r4, d in r5 and n in r6.
/// It ends as memcpy's, with s in r5 and d in r4, and the same registers are changed.
pub fn bcopy() -> &'static [Node]
    ensures listing { result.now ≡ BCOPY_NODES }
    ensures well { IsTrue (is_well result.now) }
    ensures spaced { IsTrue (is_spaced result.now) }
    ensures serves { IfSome (tree_of result.now) (λ tree. Serves own most_steps (call A27) BCOPY tree) }
{
    &BCOPY_NODES
}
