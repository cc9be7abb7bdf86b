//! The words of the crate in the kernel's block.
ghost use Rattle.std.specs.Prelude.{ℕ, ◌+◌};
ghost use Rattle.kern_layout.specs.BlockWords.{IsBlock};
ghost use Rattle.kern_layout.specs.declared.ranges.TheConstants.{EVENT_CODE};
ghost use Rattle.kern_stay.specs.Words.{overlaid, EndsBy};
ghost use Rattle.kern_stay.specs.declared.places.TheConstants.{CACHED};
ghost use Rattle.kern_stay.specs.declared.room.TheConstants.{ROOM_NODES};
ghost use Rattle.kern_event.specs.declared.places.TheConstants as place;
ghost use Rattle.kern_event.specs.declared.b07_deliver_event.TheConstants as deliver_event;
ghost use Rattle.kern_event.specs.declared.b08_open_event.TheConstants as open_event;
ghost use Rattle.kern_event.specs.declared.b09_close_event.TheConstants as close_event;
ghost use Rattle.kern_event.specs.declared.b0a_wait_event.TheConstants as wait_event;
ghost use Rattle.kern_event.specs.declared.b0b_test_event.TheConstants as test_event;
ghost use Rattle.kern_event.specs.declared.b20_undeliver_event.TheConstants as undeliver_event;
ghost use Rattle.kern_event.specs.declared.c02_sys_enq_int_rp.TheConstants as sys_enq_int_rp;
ghost use Rattle.kern_event.specs.declared.c03_sys_deq_int_rp.TheConstants as sys_deq_int_rp;
ghost use Rattle.kern_event.specs.EventWords.{event_pieces};
ghost use Rattle.kern_event.specs.EventLaws.{EventServes};

use crate::places::{
    CLOSE_EVENT, DELIVER_EVENT, DISABLE_EVENT, ENABLE_EVENT, OPEN_EVENT, ROOM, SYS_DEQ_INT_RP,
    SYS_ENQ_INT_RP, TEST_EVENT, UNDELIVER_EVENT, WAIT_EVENT,
};
use crate::{
    b0a_wait_event, b0b_test_event, b07_deliver_event, b08_open_event, b09_close_event,
    b20_undeliver_event, c02_sys_enq_int_rp, c03_sys_deq_int_rp,
};
use kern_layout::KernelBlock;
use kern_stay::placing::put_listing;
use kern_stay::room::ROOM_NODES;

/// Writes the words of the listings at their addresses. Every other word stays.
pub fn place(block: &mut KernelBlock)
    ensures { (f : ℕ → ℕ) → IsBlock block.old f → IsBlock block.new (overlaid event_pieces f) }
{
    put_listing(block, DELIVER_EVENT, &b07_deliver_event::NODES);
    put_listing(block, SYS_DEQ_INT_RP, &c03_sys_deq_int_rp::NODES);
    put_listing(block, SYS_ENQ_INT_RP, &c02_sys_enq_int_rp::NODES);
    put_listing(block, ROOM, &ROOM_NODES);
    put_listing(block, UNDELIVER_EVENT, &b20_undeliver_event::NODES);
    put_listing(block, WAIT_EVENT, &b0a_wait_event::NODES);
    put_listing(block, TEST_EVENT, &b0b_test_event::NODES);
    put_listing(block, DISABLE_EVENT, &b09_close_event::DISABLE_NODES);
    put_listing(block, ENABLE_EVENT, &b09_close_event::ENABLE_NODES);
    put_listing(block, CLOSE_EVENT, &b09_close_event::NODES);
    put_listing(block, OPEN_EVENT, &b08_open_event::NODES);
}

/// Each listing ends where the next one begins, or before it, and all of them in the range of the calls on events. It does nothing.
pub fn apart()
    ensures open_event { EndsBy place.OPEN_EVENT open_event.NODES place.CLOSE_EVENT }
    ensures close_event { EndsBy place.CLOSE_EVENT close_event.NODES place.ENABLE_EVENT }
    ensures enable_event { EndsBy place.ENABLE_EVENT close_event.ENABLE_NODES place.DISABLE_EVENT }
    ensures disable_event { EndsBy place.DISABLE_EVENT close_event.DISABLE_NODES place.TEST_EVENT }
    ensures test_event { EndsBy place.TEST_EVENT test_event.NODES place.WAIT_EVENT }
    ensures wait_event { EndsBy place.WAIT_EVENT wait_event.NODES place.UNDELIVER_EVENT }
    ensures undeliver_event { EndsBy place.UNDELIVER_EVENT undeliver_event.NODES place.ROOM }
    ensures room { EndsBy place.ROOM ROOM_NODES place.SYS_ENQ_INT_RP }
    ensures sys_enq_int_rp { EndsBy place.SYS_ENQ_INT_RP sys_enq_int_rp.NODES place.SYS_DEQ_INT_RP }
    ensures sys_deq_int_rp { EndsBy place.SYS_DEQ_INT_RP sys_deq_int_rp.NODES place.DELIVER_EVENT }
    ensures deliver_event { EndsBy place.DELIVER_EVENT deliver_event.NODES (CACHED + EVENT_CODE.to) }
{}

/// Where the words stand, each call is served by its listing. It does nothing.
pub fn event_serves()
    ensures { EventServes }
{}
