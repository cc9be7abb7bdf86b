//! Words of the block behind `place`, encoded by hand from the R3000A manual's instruction formats.
use kern_entry::back::back;
use kern_entry::deliver::deliver;
use kern_entry::elements::elements;
use kern_entry::interrupts::interrupts;
use kern_entry::law::{
    frames_serve, interrupts_serve, own_calls, routines_return, stays_begin, tasks_serve,
};
use kern_entry::push::push;
use kern_entry::scan::scan;
use kern_entry::stepwise::words_walk;
use kern_entry::take_up::take_up;
use kern_entry::work::work;
use kern_entry::{apart, place_code, place_vector};
use kern_layout::KernelBlock;
use std::test::Fail;

#[test]
fn places_the_entry(rt: HostRuntime) -> Result<(), Fail> {
    let mut block = KernelBlock::new(rt.alloc())?;
    place_code(&mut block);
    place_vector(&mut block);
    // The vector: j 80001000h, nop.
    assert_eq!(rt; block.word(0x80), 0x0800_0400);
    assert_eq!(rt; block.word(0x84), 0);
    // The gates: syscall.
    assert_eq!(rt; block.word(0xA0), 0x0000_000C);
    assert_eq!(rt; block.word(0xB0), 0x0000_000C);
    assert_eq!(rt; block.word(0xC0), 0x0000_000C);
    assert_eq!(rt; block.word(0xD0), 0x0000_000C);
    assert_eq!(rt; block.word(0xE0), 0x0000_000C);
    // Saving: lui k0, 8001h; sw r1, EB0Ch(k0).
    assert_eq!(rt; block.word(0x1000), 0x3C1A_8001);
    assert_eq!(rt; block.word(0x1004), 0xAF41_EB0C);
    // INTERRUPTS: lui t7, 1F80h; lui t6, 8001h; lw s0, 1070h(t7); lw s1, 1074h(t7); its end is j 80001880h.
    assert_eq!(rt; block.word(0x1180), 0x3C0F_1F80);
    assert_eq!(rt; block.word(0x1184), 0x3C0E_8001);
    assert_eq!(rt; block.word(0x1188), 0x8DF0_1070);
    assert_eq!(rt; block.word(0x1190), 0x8DF1_1074);
    assert_eq!(rt; block.word(0x12A0), 0x0800_0620);
    // The return: jr k0; rfe.
    assert_eq!(rt; block.word(0x151C), 0x0340_0008);
    assert_eq!(rt; block.word(0x1520), 0x4200_0010);
    // BACK: lui t6, 8001h; lw t4, EA08h(t6).
    assert_eq!(rt; block.word(0x1640), 0x3C0E_8001);
    assert_eq!(rt; block.word(0x1644), 0x8DCC_EA08);
    // A SYSCALL that delivers: lui t6, 8001h; lw ra, EB88h(t6).
    assert_eq!(rt; block.word(0x17A0), 0x3C0E_8001);
    assert_eq!(rt; block.word(0x17A4), 0x8DDF_EB88);
    // WORK: lui t6, 8001h; lw t0, EB98h(t6).
    assert_eq!(rt; block.word(0x1880), 0x3C0E_8001);
    assert_eq!(rt; block.word(0x1884), 0x8DC8_EB98);
    // ELEMENTS: or s1, zero, zero. SCAN: lw t1, EA10h(t6).
    assert_eq!(rt; block.word(0x1980), 0x0000_8825);
    assert_eq!(rt; block.word(0x1A40), 0x8DC9_EA10);
    // PUSH: lui t6, 8001h; lw t4, EA08h(t6); its end is j 80001480h.
    assert_eq!(rt; block.word(0x1B40), 0x3C0E_8001);
    assert_eq!(rt; block.word(0x1B44), 0x8DCC_EA08);
    assert_eq!(rt; block.word(0x1C58), 0x0800_0520);
    // TAKE_UP: lui t6, 8001h; lw t5, EA04h(t6).
    assert_eq!(rt; block.word(0x1C80), 0x3C0E_8001);
    assert_eq!(rt; block.word(0x1C84), 0x8DCD_EA04);
    // BAD_RETURN: lui k0, 8001h; lw t2, EB84h(k0).
    assert_eq!(rt; block.word(0x1860), 0x3C1A_8001);
    assert_eq!(rt; block.word(0x1864), 0x8F4A_EB84);
    Ok(())
}

#[test]
fn lends_listings(rt: HostRuntime) {
    assert_eq!(rt; push().len(), 66);
    assert_eq!(rt; take_up().len(), 36);
    assert_eq!(rt; back().len(), 30);
    assert_eq!(rt; work().len(), 45);
    assert_eq!(rt; elements().len(), 33);
    assert_eq!(rt; scan().len(), 49);
    assert_eq!(rt; deliver().len(), 16);
    assert_eq!(rt; interrupts().len(), 69);
}

#[test]
fn laws_do_nothing() {
    stays_begin();
    own_calls();
    routines_return();
    frames_serve();
    tasks_serve();
    interrupts_serve();
    words_walk();
    apart();
}
