//! A SYSCALL that delivers an event.
ghost use Rattle.std.specs.Prelude.{◌≡◌, IsTrue, IfSome, []};
ghost use Rattle.psx_flow.specs.Reading.{tree_of};
ghost use Rattle.psx_flow.specs.Well.{is_well};
ghost use Rattle.psx_flow.specs.Spaced.{is_spaced};
ghost use Rattle.abs_kernel.specs.Sys.{sys_delivers};
ghost use Rattle.kern_stay.specs.Doors.{Serves, most_back_steps};
ghost use Rattle.kern_entry.specs.declared.places.TheConstants.{DELIVER};
ghost use Rattle.kern_entry.specs.declared.deliver.TheConstants.{DELIVER_NODES};

use crate::{area, tasks};
use kern_stay::places::WORK;
use psx_flow::{Node, op, register};

/// r14 is the upper half of the data's addresses. r8 is the class, and r10 the spec.
pub const DELIVER_NODES: [Node; 16] = [
    op!(LUI r14, tasks::DATA),
    op!(LW r31, r14, area::PC),
    op!(LUI r8, tasks::SYSCALL_CLASSES),
    op!(ADDIU r9, r31, 4),
    op!(SW r9, r14, area::PC),
    op!(ADDIU r8, r8, tasks::SYSCALL_CLASS),
    op!(ADDIU r10, r0, tasks::SYSCALL_SPEC),
    op!(SW r8, r14, tasks::FIRST),
    op!(SW r10, r14, tasks::SPEC),
    op!(SW r0, r14, tasks::EVENT),
    op!(ADDIU r8, r0, tasks::KIND_SCAN),
    op!(SW r8, r14, tasks::KIND),
    op!(SW r0, r14, tasks::ELEMENT_COUNT),
    op!(SW r0, r14, tasks::LINE_COUNT),
    op!(OR r2, r0, r0),
    Node::Jump(WORK),
];

/// The listing at DELIVER, where a SYSCALL from 4 on arrives.
/// It ends at WORK, with the program's context in the work area, which goes on behind the SYSCALL with all its registers but k0 and k1, and with a scan from the first event on as its task. r31 is the SYSCALL's address. r2, r8 to r10 and r14 are changed too.
pub fn deliver() -> &'static [Node]
    ensures listing { result.now ≡ DELIVER_NODES }
    ensures well { IsTrue (is_well result.now) }
    ensures spaced { IsTrue (is_spaced result.now) }
    ensures serves { IfSome (tree_of result.now) (λ tree. Serves [] most_back_steps sys_delivers DELIVER tree) }
{
    &DELIVER_NODES
}
