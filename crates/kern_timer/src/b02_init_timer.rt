//! A counter begins anew, with a target and a mode.
ghost use Rattle.std.specs.Prelude.{◌≡◌, IsTrue, IfSome, []};
ghost use Rattle.psx_flow.specs.Reading.{tree_of};
ghost use Rattle.psx_flow.specs.Well.{is_well};
ghost use Rattle.psx_flow.specs.Spaced.{is_spaced};
ghost use Rattle.abs_kernel.specs.declared.calls.CallId.TheVariants.{B02};
ghost use Rattle.abs_kernel.specs.Calls.{call};
ghost use Rattle.kern_stay.specs.Doors.{Serves, most_steps};
ghost use Rattle.kern_timer.specs.declared.b02_init_timer.TheConstants.{NODES};
ghost use Rattle.kern_timer.specs.declared.places.TheConstants.{INIT_TIMER};

use crate::places;
use kern_stay::places::LEAVE;
use psx_flow::{Node, Test, op, register};

/// r4 is the counter, r5 the target, r6 the flags. r9 is the new mode: first flag 4, as 1h; r10 is flag 0, as 100h, and r11 flag 12, as 10h. r8 is for the counter's ports.
pub const NODES: [Node; 23] = [
    op!(SLTIU r8, r4, places::COUNTER_COUNT),
    Node::If(Test::Differ(register!(r8), register!(r0))),
    op!(SLL r9, r6, 27),
    op!(SRL r9, r9, 31),
    op!(SLL r10, r6, 31),
    op!(SRL r10, r10, 23),
    op!(SLL r11, r6, 19),
    op!(SRL r11, r11, 31),
    op!(SLL r11, r11, 4),
    op!(ADDIU r9, r9, places::PLAIN_MODE),
    op!(SUBU r9, r9, r10),
    op!(ADDU r9, r9, r11),
    op!(SLL r8, r4, 4),
    op!(LUI r10, places::PORTS),
    op!(ADDU r8, r8, r10),
    op!(SW r0, r8, places::MODES),
    op!(SW r5, r8, places::TARGETS),
    op!(SW r9, r8, places::MODES),
    op!(ADDIU r2, r0, 1),
    Node::Jump(LEAVE),
    Node::End,
    op!(OR r2, r0, r0),
    Node::Jump(LEAVE),
];

/// The listing of B02, init_timer(t, target, flags), which writes 0 to counter t's mode, then its target and its new mode.
/// The table's entry leads to it with t in r4, the target in r5 and the flags in r6.
/// It ends at LEAVE with 1 in r2, or with 0 where t is above 2, and no port is accessed. r8 to r11 are changed too.
pub fn init_timer() -> &'static [Node]
    ensures listing { result.now ≡ NODES }
    ensures well { IsTrue (is_well result.now) }
    ensures spaced { IsTrue (is_spaced result.now) }
    ensures serves { IfSome (tree_of result.now) (λ tree. Serves [] most_steps (call B02) INIT_TIMER tree) }
{
    &NODES
}
