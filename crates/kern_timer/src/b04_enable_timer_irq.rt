//! The interrupts of a counter are let through, or masked.
ghost use Rattle.std.specs.Prelude.{◌≡◌, IsTrue, IfSome, []};
ghost use Rattle.psx_flow.specs.Reading.{tree_of};
ghost use Rattle.psx_flow.specs.Well.{is_well};
ghost use Rattle.psx_flow.specs.Spaced.{is_spaced};
ghost use Rattle.abs_kernel.specs.declared.calls.CallId.TheVariants.{B04, B05};
ghost use Rattle.abs_kernel.specs.Calls.{call};
ghost use Rattle.kern_stay.specs.Doors.{Serves, most_steps};
ghost use Rattle.kern_timer.specs.declared.b04_enable_timer_irq.TheConstants.{NODES, DISABLE_NODES};
ghost use Rattle.kern_timer.specs.declared.places.TheConstants.{ENABLE_TIMER_IRQ, DISABLE_TIMER_IRQ};

use crate::places;
use kern_stay::places::LEAVE;
use psx_flow::{Node, Test, op, register};

// r4 is the counter, or 3 for VBLANK. r8 is the line, r9 the line's bit and r10 the mask, which the nodes given change. r11 is for the mask's port.
macro_rules! masking {
    ($($change:expr,)*) => {
        [
            op!(SLTIU r8, r4, places::BLANK + 1),
            Node::If(Test::Differ(register!(r8), register!(r0))),
            op!(ADDIU r8, r4, places::COUNTER_LINES),
            op!(ADDIU r9, r0, places::BLANK),
            Node::If(Test::Same(register!(r4), register!(r9))),
            op!(ADDIU r8, r0, places::BLANK_LINE),
            Node::End,
            op!(ADDIU r9, r0, 1),
            op!(SLLV r9, r9, r8),
            op!(LUI r11, places::PORTS),
            op!(LW r10, r11, places::MASK),
            op!(NOP),
            $($change,)*
            op!(SW r10, r11, places::MASK),
            op!(ADDIU r2, r0, 1),
            Node::Jump(LEAVE),
            Node::End,
            op!(OR r2, r0, r0),
            Node::Jump(LEAVE),
        ]
    };
}

/// The line's bit is set.
pub const NODES: [Node; 19] = masking!(op!(OR r10, r10, r9),);

/// It is cleared.
pub const DISABLE_NODES: [Node; 20] = masking!(op!(NOR r9, r9, r0), op!(AND r10, r10, r9),);

/// The listing of B04, enable_timer_irq(t), which sets the bit of counter t's line in I_MASK, or that of VBLANK where t is 3. The table's entry leads to it with t in r4.
/// It ends at LEAVE with 1 in r2, or with 0 where t is above 3, and no port is accessed. r8 to r11 are changed too.
pub fn enable_timer_irq() -> &'static [Node]
    ensures listing { result.now ≡ NODES }
    ensures well { IsTrue (is_well result.now) }
    ensures spaced { IsTrue (is_spaced result.now) }
    ensures serves { IfSome (tree_of result.now) (λ tree. Serves [] most_steps (call B04) ENABLE_TIMER_IRQ tree) }
{
    &NODES
}

/// The listing of B05, disable_timer_irq(t), which clears that bit. It ends and changes registers as enable_timer_irq's.
pub fn disable_timer_irq() -> &'static [Node]
    ensures listing { result.now ≡ DISABLE_NODES }
    ensures well { IsTrue (is_well result.now) }
    ensures spaced { IsTrue (is_spaced result.now) }
    ensures serves { IfSome (tree_of result.now) (λ tree. Serves [] most_steps (call B05) DISABLE_TIMER_IRQ tree) }
{
    &DISABLE_NODES
}
