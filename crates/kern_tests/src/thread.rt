//! Words of the block behind `place`, encoded by hand from the R3000A manual's instruction formats.
use kern_layout::KernelBlock;
use kern_thread::b0e_open_thread::open_thread;
use kern_thread::b0f_close_thread::close_thread;
use kern_thread::b10_change_thread::change_thread;
use kern_thread::b17_return_from_exception::return_from_exception;
use kern_thread::place;
use kern_thread::placing::{apart, thread_serves};
use std::test::Fail;

#[test]
fn places_the_calls(rt: HostRuntime) -> Result<(), Fail> {
    let mut block = KernelBlock::new(rt.alloc())?;
    place(&mut block);
    // ChangeThread and CloseThread: lui t0, FF00h; subu t5, a0, t0.
    assert_eq!(rt; block.word(0x2000), 0x3C08_FF00);
    assert_eq!(rt; block.word(0x2004), 0x0088_6823);
    assert_eq!(rt; block.word(0x21C0), 0x3C08_FF00);
    assert_eq!(rt; block.word(0x21C4), 0x0088_6823);
    // OpenThread: lui t6, 8001h; behind a load or t5, zero, zero.
    assert_eq!(rt; block.word(0x2240), 0x3C0E_8001);
    assert_eq!(rt; block.word(0x2248), 0x0000_6825);
    // ReturnFromException: lui t6, 8001h; lw t4, EA08h(t6).
    assert_eq!(rt; block.word(0x2340), 0x3C0E_8001);
    assert_eq!(rt; block.word(0x2344), 0x8DCC_EA08);
    Ok(())
}

#[test]
fn lends_listings(rt: HostRuntime) {
    assert_eq!(rt; open_thread().len(), 55);
    assert_eq!(rt; close_thread().len(), 22);
    assert_eq!(rt; change_thread().len(), 52);
    assert_eq!(rt; return_from_exception().len(), 21);
}

#[test]
fn laws_do_nothing() {
    apart();
    thread_serves();
}
