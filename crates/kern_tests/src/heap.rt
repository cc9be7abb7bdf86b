//! Words of the block behind `place`, encoded by hand from the R3000A manual's instruction formats.
use kern_heap::a33_malloc::malloc;
use kern_heap::a34_free::free;
use kern_heap::a37_calloc::calloc;
use kern_heap::a38_realloc::realloc;
use kern_heap::a39_init_heap::init_heap;
use kern_heap::allot::allot;
use kern_heap::find::find;
use kern_heap::join::join;
use kern_heap::place;
use kern_heap::placing::{apart, heap_serves};
use kern_heap::release::release;
use kern_layout::KernelBlock;
use std::test::Fail;

#[test]
fn places_the_calls(rt: HostRuntime) -> Result<(), Fail> {
    let mut block = KernelBlock::new(rt.alloc())?;
    place(&mut block);
    // malloc: or a1, zero, a0; jal 80007F00h.
    assert_eq!(rt; block.word(0x7C00), 0x0004_2825);
    assert_eq!(rt; block.word(0x7C04), 0x0C00_1FC0);
    // free: jal 80008000h.
    assert_eq!(rt; block.word(0x7C40), 0x0C00_2000);
    // calloc: multu a0, a1; mfhi t2.
    assert_eq!(rt; block.word(0x7C80), 0x0085_0019);
    assert_eq!(rt; block.word(0x7C84), 0x0000_5010);
    // InitHeap: lui t6, 1; addiu t0, a0, 7.
    assert_eq!(rt; block.word(0x7E00), 0x3C0E_0001);
    assert_eq!(rt; block.word(0x7E04), 0x2488_0007);
    // The listing that joins two blocks: lw t2, 0(t1).
    assert_eq!(rt; block.word(0x8104), 0x8D2A_0000);
    Ok(())
}

#[test]
fn lends_listings(rt: HostRuntime) {
    assert_eq!(rt; malloc().len(), 3);
    assert_eq!(rt; free().len(), 3);
    assert_eq!(rt; calloc().len(), 18);
    assert_eq!(rt; realloc().len(), 33);
    assert_eq!(rt; init_heap().len(), 40);
    assert_eq!(rt; allot().len(), 46);
    assert_eq!(rt; release().len(), 17);
    assert_eq!(rt; find().len(), 23);
    assert_eq!(rt; join().len(), 20);
}

#[test]
fn laws_do_nothing() {
    apart();
    heap_serves();
}
