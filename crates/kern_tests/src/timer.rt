//! Words of the block behind `place`, encoded by hand from the R3000A manual's instruction formats.
use kern_layout::KernelBlock;
use kern_timer::b02_init_timer::init_timer;
use kern_timer::b03_get_timer::get_timer;
use kern_timer::b04_enable_timer_irq::{disable_timer_irq, enable_timer_irq};
use kern_timer::b06_restart_timer::restart_timer;
use kern_timer::laws::{counters_are_read, counters_begin, lines_are_masked, other_numbers};
use kern_timer::place;
use kern_timer::placing::{apart, timer_serves};
use std::test::Fail;

#[test]
fn places_the_calls(rt: HostRuntime) -> Result<(), Fail> {
    let mut block = KernelBlock::new(rt.alloc())?;
    place(&mut block);
    // init_timer: sltiu t0, a0, 3; its three stores: sw zero, 1104h(t0); sw a1, 1108h(t0); sw t1, 1104h(t0).
    assert_eq!(rt; block.word(0x3800), 0x2C88_0003);
    assert_eq!(rt; block.word(0x3840), 0xAD00_1104);
    assert_eq!(rt; block.word(0x3844), 0xAD05_1108);
    assert_eq!(rt; block.word(0x3848), 0xAD09_1104);
    // get_timer: lui t1, 1F80h; addu t0, t0, t1; lw v0, 1100h(t0).
    assert_eq!(rt; block.word(0x3890), 0x3C09_1F80);
    assert_eq!(rt; block.word(0x3894), 0x0109_4021);
    assert_eq!(rt; block.word(0x3898), 0x8D02_1100);
    // enable_timer_irq and disable_timer_irq: sltiu t0, a0, 4; then or t2, t2, t1, and nor t1, t1, zero; and t2, t2, t1.
    assert_eq!(rt; block.word(0x38C0), 0x2C88_0004);
    assert_eq!(rt; block.word(0x38F4), 0x0149_5025);
    assert_eq!(rt; block.word(0x3940), 0x2C88_0004);
    assert_eq!(rt; block.word(0x3974), 0x0120_4827);
    assert_eq!(rt; block.word(0x3978), 0x0149_5024);
    // restart_timer: sw zero, 1100h(t0).
    assert_eq!(rt; block.word(0x39D8), 0xAD00_1100);
    Ok(())
}

#[test]
fn lends_listings(rt: HostRuntime) {
    assert_eq!(rt; init_timer().len(), 23);
    assert_eq!(rt; get_timer().len(), 11);
    assert_eq!(rt; enable_timer_irq().len(), 19);
    assert_eq!(rt; disable_timer_irq().len(), 20);
    assert_eq!(rt; restart_timer().len(), 11);
}

#[test]
fn laws_do_nothing() {
    apart();
    timer_serves();
    counters_begin();
    counters_are_read();
    lines_are_masked();
    other_numbers();
}
