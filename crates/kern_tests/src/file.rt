//! Words of the block behind `place`, encoded by hand from the R3000A manual's instruction formats.
use kern_file::a00_open::open_file;
use kern_file::a02_read::read;
use kern_file::a03_write::write;
use kern_file::a3b_getchar::getchar;
use kern_file::a3c_putchar::putchar;
use kern_file::a3d_gets::gets;
use kern_file::a3e_puts::puts;
use kern_file::a04_close::close;
use kern_file::a08_getc::getc;
use kern_file::a09_putc::putc;
use kern_file::b54_get_last_error::get_last_error;
use kern_file::laws::{opened, refused, sent};
use kern_file::line_laws::{lines, tries};
use kern_file::place;
use kern_file::places::GETCHAR;
use kern_file::placing::{apart, file_serves};
use kern_layout::KernelBlock;
use std::test::Fail;

#[test]
fn places_the_calls(rt: HostRuntime) -> Result<(), Fail> {
    let mut block = KernelBlock::new(rt.alloc())?;
    place(&mut block);
    // puts: bne a0, zero, 80008C14h.
    assert_eq!(rt; block.word(0x8C00), 0x1480_0004);
    // Its loop: bne t0, t3, 80008C50h; nop; j 80001800h.
    assert_eq!(rt; block.word(0x8C40), 0x150B_0003);
    assert_eq!(rt; block.word(0x8C44), 0);
    assert_eq!(rt; block.word(0x8C48), 0x0800_0600);
    // The count of user memory: lui t2, 8001h.
    assert_eq!(rt; block.word(0x8C80), 0x3C0A_8001);
    // putchar: lui k0, 1F80h; then sll v0, a0, 24; srl v0, v0, 24; j 80001400h.
    assert_eq!(rt; block.word(0x8D40), 0x3C1A_1F80);
    assert_eq!(rt; block.word(0x8D48), 0x0004_1600);
    assert_eq!(rt; block.word(0x8D4C), 0x0002_1602);
    assert_eq!(rt; block.word(0x8D50), 0x0800_0500);
    // GetLastError: lui t0, 8001h; lw v0, -15E4h(t0).
    assert_eq!(rt; block.word(0x8D80), 0x3C08_8001);
    assert_eq!(rt; block.word(0x8D84), 0x8D02_EA1C);
    // putc: sltiu t0, a1, 16; close and write: sltiu t0, a0, 16.
    assert_eq!(rt; block.word(0x8DC0), 0x2CA8_0010);
    assert_eq!(rt; block.word(0x8E40), 0x2C88_0010);
    assert_eq!(rt; block.word(0x8EC0), 0x2C88_0010);
    // The loop of write: bne t0, t3, 80008FA4h.
    assert_eq!(rt; block.word(0x8F80), 0x150B_0008);
    // open: lui t6, 8001h.
    assert_eq!(rt; block.word(0x8FC0), 0x3C0E_8001);
    // getchar: lui k0, 1F80h; then lw t0, 2100h(k0).
    assert_eq!(rt; block.word(GETCHAR % 0x2000_0000), 0x3C1A_1F80);
    assert_eq!(rt; block.word(GETCHAR % 0x2000_0000 + 4), 0x8F48_2100);
    Ok(())
}

#[test]
fn lends_listings(rt: HostRuntime) {
    assert_eq!(rt; putchar().len(), 5);
    assert_eq!(rt; puts().0.len(), 9);
    assert_eq!(rt; puts().1.len(), 11);
    assert_eq!(rt; get_last_error().len(), 4);
    assert_eq!(rt; putc().len(), 21);
    assert_eq!(rt; close().len(), 18);
    assert_eq!(rt; write().0.len(), 29);
    assert_eq!(rt; write().1.len(), 11);
    assert_eq!(rt; open_file().len(), 53);
    assert_eq!(rt; getchar().len(), 11);
    assert_eq!(rt; getc().len(), 27);
    assert_eq!(rt; read().0.len(), 29);
    assert_eq!(rt; read().1.len(), 20);
    assert_eq!(rt; gets().0.len(), 17);
    assert_eq!(rt; gets().1.len(), 45);
}

#[test]
fn laws_do_nothing() {
    apart();
    file_serves();
    sent();
    opened();
    refused();
    tries();
    lines();
}
