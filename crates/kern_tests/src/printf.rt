//! Words of the block behind `place`, encoded by hand from the R3000A manual's instruction formats.
use kern_layout::KernelBlock;
use kern_printf::conversion::{conversion, flag, length, precision, width};
use kern_printf::emission::{digits, null_bytes, sign, text_bytes};
use kern_printf::format::{format, printf};
use kern_printf::kind::{argument, kind};
use kern_printf::number::{byte, count, fill, number, zeros};
use kern_printf::padding::{left, padding, right};
use kern_printf::place;
use kern_printf::placing::{apart, printf_serves, serves};
use kern_printf::text::{measure, null_text, text};
use psx_flow::size_of;
use std::test::Fail;

#[test]
fn places_the_listings(rt: HostRuntime) -> Result<(), Fail> {
    let mut block = KernelBlock::new(rt.alloc())?;
    place(&mut block);
    // printf: bne a0, zero, four words on; nop; or v0, zero, zero; j 80001400h.
    assert_eq!(rt; block.word(0x6400), 0x1480_0004);
    assert_eq!(rt; block.word(0x6404), 0);
    assert_eq!(rt; block.word(0x6408), 0x0000_1025);
    assert_eq!(rt; block.word(0x640C), 0x0800_0500);
    // A byte of the format: bne a0, t6, four words on; lbu t4, 0(a0); addiu t2, zero, '%'.
    assert_eq!(rt; block.word(0x6480), 0x148E_0004);
    assert_eq!(rt; block.word(0x6494), 0x908C_0000);
    assert_eq!(rt; block.word(0x64B0), 0x240A_0025);
    Ok(())
}

#[test]
fn lends_listings(rt: HostRuntime) {
    assert_eq!(rt; size_of(printf()), 14);
    assert_eq!(rt; size_of(format()), 28);
    assert_eq!(rt; size_of(conversion()), 14);
    assert_eq!(rt; size_of(flag()), 14);
    assert_eq!(rt; size_of(width()), 29);
    assert_eq!(rt; size_of(precision()), 19);
    assert_eq!(rt; size_of(length()), 9);
    assert_eq!(rt; size_of(kind()), 55);
    assert_eq!(rt; size_of(argument()), 27);
    assert_eq!(rt; size_of(number()), 9);
    assert_eq!(rt; size_of(fill()), 16);
    assert_eq!(rt; size_of(count()), 15);
    assert_eq!(rt; size_of(zeros()), 11);
    assert_eq!(rt; size_of(byte()), 9);
    assert_eq!(rt; size_of(text()), 18);
    assert_eq!(rt; size_of(null_text()), 15);
    assert_eq!(rt; size_of(measure()), 19);
    assert_eq!(rt; size_of(padding()), 12);
    assert_eq!(rt; size_of(left()), 10);
    assert_eq!(rt; size_of(right()), 10);
    assert_eq!(rt; size_of(sign()), 17);
    assert_eq!(rt; size_of(digits()), 20);
    assert_eq!(rt; size_of(text_bytes()), 11);
    assert_eq!(rt; size_of(null_bytes()), 14);
}

#[test]
fn laws_do_nothing() {
    apart();
    serves();
    printf_serves();
}
