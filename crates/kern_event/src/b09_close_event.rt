//! An event is closed, enabled or disabled.
ghost use Rattle.std.specs.Prelude.{◌≡◌, IsTrue, IfSome, []};
ghost use Rattle.psx_flow.specs.Reading.{tree_of};
ghost use Rattle.psx_flow.specs.Well.{is_well};
ghost use Rattle.psx_flow.specs.Spaced.{is_spaced};
ghost use Rattle.abs_kernel.specs.declared.calls.CallId.TheVariants.{B09, B0C, B0D};
ghost use Rattle.abs_kernel.specs.Calls.{call};
ghost use Rattle.kern_stay.specs.Doors.{Serves, most_steps};
ghost use Rattle.kern_event.specs.declared.b09_close_event.TheConstants.{NODES, ENABLE_NODES, DISABLE_NODES};
ghost use Rattle.kern_event.specs.declared.places.TheConstants.{CLOSE_EVENT, ENABLE_EVENT, DISABLE_EVENT};

use crate::places;
use kern_stay::places::LEAVE;
use psx_flow::{Node, Test, op, register};

// r12 is the new status and r4 the handle. r13 is the event's number, r10 its address less that of the first event, and r11 its status, 0 of a free one.
macro_rules! setting {
    ($status:expr) => {
        [
            op!(ADDIU r12, r0, $status),
            op!(LUI r8, places::HANDLES),
            op!(SUBU r13, r4, r8),
            op!(LUI r14, places::DATA),
            op!(LW r9, r14, places::COUNT),
            op!(ADDIU r2, r0, 1),
            op!(SLTU r8, r13, r9),
            Node::If(Test::Differ(register!(r8), register!(r0))),
            op!(SLL r10, r13, 5),
            op!(SLL r11, r13, 2),
            op!(SUBU r10, r10, r11),
            op!(ADDU r10, r10, r14),
            op!(LW r11, r10, places::STATUSES),
            op!(NOP),
            Node::If(Test::Differ(register!(r11), register!(r0))),
            op!(SW r12, r10, places::STATUSES),
            Node::End,
            Node::End,
            Node::Jump(LEAVE),
        ]
    };
}

/// The event becomes free.
pub const NODES: [Node; 19] = setting!(places::FREE);

/// It becomes busy.
pub const ENABLE_NODES: [Node; 19] = setting!(places::BUSY);

/// It becomes disabled.
pub const DISABLE_NODES: [Node; 19] = setting!(places::DISABLED);

/// The listing of B09, CloseEvent(h), which frees the event's slot. The table's entry leads to it with h in r4.
/// It ends at LEAVE with 1 in r2, also where h names no event. r8 to r14 are changed too.
pub fn close_event() -> &'static [Node]
    ensures listing { result.now ≡ NODES }
    ensures well { IsTrue (is_well result.now) }
    ensures spaced { IsTrue (is_spaced result.now) }
    ensures serves { IfSome (tree_of result.now) (λ tree. Serves [] most_steps (call B09) CLOSE_EVENT tree) }
{
    &NODES
}

/// The listing of B0C, EnableEvent(h), which makes the event busy where it isn't free. It ends and changes registers as close_event's.
pub fn enable_event() -> &'static [Node]
    ensures listing { result.now ≡ ENABLE_NODES }
    ensures well { IsTrue (is_well result.now) }
    ensures spaced { IsTrue (is_spaced result.now) }
    ensures serves { IfSome (tree_of result.now) (λ tree. Serves [] most_steps (call B0C) ENABLE_EVENT tree) }
{
    &ENABLE_NODES
}

/// The listing of B0D, DisableEvent(h), which disables the event where it isn't free. It ends and changes registers as close_event's.
pub fn disable_event() -> &'static [Node]
    ensures listing { result.now ≡ DISABLE_NODES }
    ensures well { IsTrue (is_well result.now) }
    ensures spaced { IsTrue (is_spaced result.now) }
    ensures serves { IfSome (tree_of result.now) (λ tree. Serves [] most_steps (call B0D) DISABLE_EVENT tree) }
{
    &DISABLE_NODES
}
