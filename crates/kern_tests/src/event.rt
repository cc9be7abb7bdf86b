//! Words of the block behind `place`, encoded by hand from the R3000A manual's instruction formats.
use kern_event::b0a_wait_event::wait_event;
use kern_event::b0b_test_event::test_event;
use kern_event::b07_deliver_event::deliver_event;
use kern_event::b08_open_event::open_event;
use kern_event::b09_close_event::{close_event, disable_event, enable_event};
use kern_event::b20_undeliver_event::undeliver_event;
use kern_event::c02_sys_enq_int_rp::sys_enq_int_rp;
use kern_event::c03_sys_deq_int_rp::sys_deq_int_rp;
use kern_event::laws::{bad_handle_keeps, handle_stays_good, ready_once, taken_back};
use kern_event::place;
use kern_event::placing::{apart, event_serves};
use kern_layout::KernelBlock;
use std::test::Fail;

#[test]
fn places_the_calls(rt: HostRuntime) -> Result<(), Fail> {
    let mut block = KernelBlock::new(rt.alloc())?;
    place(&mut block);
    // OpenEvent: lui t6, 8001h; lw t1, EA10h(t6).
    assert_eq!(rt; block.word(0x2800), 0x3C0E_8001);
    assert_eq!(rt; block.word(0x2804), 0x8DC9_EA10);
    // CloseEvent, EnableEvent, DisableEvent: addiu t4, zero, the status.
    assert_eq!(rt; block.word(0x2880), 0x240C_0000);
    assert_eq!(rt; block.word(0x2900), 0x240C_2000);
    assert_eq!(rt; block.word(0x2980), 0x240C_1000);
    // TestEvent and WaitEvent: lui t0, F100h; subu t5, a0, t0.
    assert_eq!(rt; block.word(0x2A00), 0x3C08_F100);
    assert_eq!(rt; block.word(0x2A04), 0x0088_6823);
    assert_eq!(rt; block.word(0x2A80), 0x3C08_F100);
    // UnDeliverEvent: lui t6, 8001h.
    assert_eq!(rt; block.word(0x2B00), 0x3C0E_8001);
    // SysEnqIntRP and SysDeqIntRP: sltiu t2, a0, 4.
    assert_eq!(rt; block.word(0x2C80), 0x2C8A_0004);
    assert_eq!(rt; block.word(0x2D40), 0x2C8A_0004);
    // DeliverEvent: lui t6, 8001h; lw ra, EB84h(t6); .. j 80001880h.
    assert_eq!(rt; block.word(0x2E00), 0x3C0E_8001);
    assert_eq!(rt; block.word(0x2E04), 0x8DDF_EB84);
    assert_eq!(rt; block.word(0x2E30), 0x0800_0620);
    Ok(())
}

#[test]
fn lends_listings(rt: HostRuntime) {
    assert_eq!(rt; deliver_event().len(), 13);
    assert_eq!(rt; open_event().len(), 23);
    assert_eq!(rt; close_event().len(), 19);
    assert_eq!(rt; enable_event().len(), 19);
    assert_eq!(rt; disable_event().len(), 19);
    assert_eq!(rt; test_event().len(), 21);
    assert_eq!(rt; wait_event().len(), 24);
    assert_eq!(rt; undeliver_event().len(), 29);
    assert_eq!(rt; sys_enq_int_rp().len(), 34);
    assert_eq!(rt; sys_deq_int_rp().len(), 33);
}

#[test]
fn laws_do_nothing() {
    apart();
    event_serves();
    ready_once();
    bad_handle_keeps();
    handle_stays_good();
    taken_back();
}
