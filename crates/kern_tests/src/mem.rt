//! Words of the block behind `place`, encoded by hand from the R3000A manual's instruction formats.
use kern_layout::KernelBlock;
use kern_mem::a2a_memcpy::memcpy;
use kern_mem::a2b_memset::memset;
use kern_mem::a2e_memchr::memchr;
use kern_mem::a2f_rand::rand;
use kern_mem::a13_setjmp::setjmp;
use kern_mem::a14_longjmp::longjmp;
use kern_mem::a30_srand::srand;
use kern_mem::a44_flush_cache::flush_cache;
use kern_mem::laws::{longjmp_comes_back, memcpy_copies, memset_fills, reading_keeps};
use kern_mem::place;
use kern_mem::placing::{apart, mem_serves};
use std::test::Fail;

#[test]
fn places_the_calls(rt: HostRuntime) -> Result<(), Fail> {
    let mut block = KernelBlock::new(rt.alloc())?;
    place(&mut block);
    // memset: bne a0, zero, 80003C14h.
    assert_eq!(rt; block.word(0x3C00), 0x1480_0004);
    // srand: lui t0, 8001h; sw a0, EA14h(t0).
    assert_eq!(rt; block.word(0x3D80), 0x3C08_8001);
    assert_eq!(rt; block.word(0x3D84), 0xAD04_EA14);
    // The count of user memory: lui t2, 8001h.
    assert_eq!(rt; block.word(0x3DC0), 0x3C0A_8001);
    // memcpy: bne a0, zero, 80003E94h; in its loop lbu t4, 0(t0); addiu t0, t0, 1; sb t4, 0(t1).
    assert_eq!(rt; block.word(0x3E80), 0x1480_0004);
    assert_eq!(rt; block.word(0x3F08), 0x910C_0000);
    assert_eq!(rt; block.word(0x3F0C), 0x2508_0001);
    assert_eq!(rt; block.word(0x3F10), 0xA12C_0000);
    // setjmp: lui t4, 8001h; lw t5, EB84h(t4).
    assert_eq!(rt; block.word(0x4340), 0x3C0C_8001);
    assert_eq!(rt; block.word(0x4344), 0x8D8D_EB84);
    // longjmp: or t0, zero, a0; addiu t9, zero, 12.
    assert_eq!(rt; block.word(0x4440), 0x0004_4025);
    assert_eq!(rt; block.word(0x4444), 0x2419_000C);
    // FlushCache: or v0, zero, zero.
    assert_eq!(rt; block.word(0x4500), 0x0000_1025);
    Ok(())
}

#[test]
fn lends_listings(rt: HostRuntime) {
    assert_eq!(rt; memcpy().len(), 41);
    assert_eq!(rt; memset().len(), 24);
    assert_eq!(rt; memchr().len(), 30);
    assert_eq!(rt; rand().len(), 11);
    assert_eq!(rt; srand().len(), 4);
    assert_eq!(rt; setjmp().len(), 38);
    assert_eq!(rt; longjmp().len(), 37);
    assert_eq!(rt; flush_cache().len(), 2);
}

#[test]
fn laws_do_nothing() {
    apart();
    mem_serves();
    memset_fills();
    memcpy_copies();
    reading_keeps();
    longjmp_comes_back();
}
