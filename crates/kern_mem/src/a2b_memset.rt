//! Bytes of user memory are written, all the same.
ghost use Rattle.std.specs.Prelude.{◌≡◌, IsTrue, IfSome};
ghost use Rattle.psx_flow.specs.Reading.{tree_of};
ghost use Rattle.psx_flow.specs.Well.{is_well};
ghost use Rattle.psx_flow.specs.Spaced.{is_spaced};
ghost use Rattle.abs_kernel.specs.declared.calls.CallId.TheVariants.{A28, A2B};
ghost use Rattle.abs_kernel.specs.Calls.{call};
ghost use Rattle.kern_stay.specs.Doors.{Serves, most_steps};
ghost use Rattle.kern_mem.specs.Own.{own};
ghost use Rattle.kern_mem.specs.declared.a2b_memset.TheConstants.{NODES, BZERO_NODES};
ghost use Rattle.kern_mem.specs.declared.places.TheConstants.{MEMSET, BZERO};

use crate::places::ROOM;
use kern_stay::places::{BAD_POINTER, LEAVE};
use psx_flow::{Node, Test, op, register};

// r4 is the place, r5 the byte, r6 the count. r8 is the address of the byte that comes, r11 where the bytes end, and r10 is 1 where that is since no user memory is there.
// The nodes before these put the arguments there.
macro_rules! filling {
    ($($before:expr,)*) => {
        [
            $($before,)*
            Node::If(Test::Same(register!(r4), register!(r0))),
            op!(OR r2, r0, r0),
            Node::Jump(LEAVE),
            Node::End,
            Node::If(Test::NotAbove(register!(r6))),
            op!(OR r2, r0, r4),
            Node::Jump(LEAVE),
            Node::End,
            op!(OR r8, r0, r4),
            Node::Call(ROOM),
            op!(SLTU r10, r9, r6),
            Node::If(Test::Same(register!(r10), register!(r0))),
            op!(OR r9, r0, r6),
            Node::End,
            op!(ADDU r11, r8, r9),
            // The bytes up to r8 are written, and those up to r11 are user memory.
            Node::While(Test::Differ(register!(r8), register!(r11))),
            op!(SB r5, 0(r8)),
            op!(ADDIU r8, r8, 1),
            Node::End,
            Node::If(Test::Differ(register!(r10), register!(r0))),
            Node::Jump(BAD_POINTER),
            Node::End,
            op!(OR r2, r0, r4),
            Node::Jump(LEAVE),
        ]
    };
}

/// The arguments stand in their registers.
pub const NODES: [Node; 24] = filling!();

/// The count comes second, and the byte is 0.
pub const BZERO_NODES: [Node; 26] = filling!(op!(OR r6, r0, r5), op!(OR r5, r0, r0),);

/// The listing of A2B, memset(d, c, n), which writes c's low byte n times from d on. The table's entry leads to it with d in r4, c in r5 and n in r6.
/// It ends at LEAVE with d in r2, or with 0 where d is 0; or at BAD_POINTER with the first address in r8 that isn't user memory, and the bytes before it written.
/// r8 to r11 and r31 are changed too.
pub fn memset() -> &'static [Node]
    ensures listing { result.now ≡ NODES }
    ensures well { IsTrue (is_well result.now) }
    ensures spaced { IsTrue (is_spaced result.now) }
    ensures serves { IfSome (tree_of result.now) (λ tree. Serves own most_steps (call A2B) MEMSET tree) }
{
    &NODES
}

/// The listing of A28, bzero(d, n), which writes zeros as memset does. The table's entry leads to it with d in r4 and n in r5.
/// It ends as memset's. r5 and r6 are changed too.
pub fn bzero() -> &'static [Node]
    ensures listing { result.now ≡ BZERO_NODES }
    ensures well { IsTrue (is_well result.now) }
    ensures spaced { IsTrue (is_spaced result.now) }
    ensures serves { IfSome (tree_of result.now) (λ tree. Serves own most_steps (call A28) BZERO tree) }
{
    &BZERO_NODES
}
