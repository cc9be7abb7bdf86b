//! Words of the block behind `place`, encoded by hand from the R3000A manual's instruction formats.
use kern_layout::KernelBlock;
use kern_text::a0d_strtol::strtol;
use kern_text::a0e_abs::abs;
use kern_text::a1a_strncpy::strncpy;
use kern_text::a1b_strlen::strlen;
use kern_text::a1e_strchr::strchr;
use kern_text::a1f_strrchr::strrchr;
use kern_text::a10_atoi::atoi;
use kern_text::a15_strcat::strcat;
use kern_text::a16_strncat::strncat;
use kern_text::a17_strcmp::strcmp;
use kern_text::a18_strncmp::strncmp;
use kern_text::a19_strcpy::strcpy;
use kern_text::a20_strpbrk::strpbrk;
use kern_text::a21_strspn::strspn;
use kern_text::a22_strcspn::strcspn;
use kern_text::a23_strtok::strtok;
use kern_text::a24_strstr::strstr;
use kern_text::a25_toupper::toupper;
use kern_text::a26_tolower::tolower;
use kern_text::blanks::blanks;
use kern_text::copy_laws::strcpy_copies;
use kern_text::digits::digits;
use kern_text::laws::{
    no_text_is_as_long_as_the_definitions_go_on, strcmp_answers_0_for_equal_texts_alone,
    strlen_counts_the_bytes_before_the_zero,
};
use kern_text::number_laws::{atoi_reads_decimals, strtol_reads_numerals, strtol_reads_prefixed};
use kern_text::place;
use kern_text::placing::{apart, text_serves};
use kern_text::prefix::prefix;
use kern_text::skip::skip;
use kern_text::token_laws::tokens;
use std::test::Fail;

#[test]
fn places_the_calls(rt: HostRuntime) -> Result<(), Fail> {
    let mut block = KernelBlock::new(rt.alloc())?;
    place(&mut block);
    // strlen: bne a0, zero, 80004C14h; nop; or v0, zero, zero; j 80001400h.
    assert_eq!(rt; block.word(0x4C00), 0x1480_0004);
    assert_eq!(rt; block.word(0x4C04), 0);
    assert_eq!(rt; block.word(0x4C08), 0x0000_1025);
    assert_eq!(rt; block.word(0x4C0C), 0x0800_0500);
    // jal 80004C80h; lbu t4, 0(t0).
    assert_eq!(rt; block.word(0x4C18), 0x0C00_1320);
    assert_eq!(rt; block.word(0x4C2C), 0x910C_0000);
    // The count of user memory: lui t2, 8001h.
    assert_eq!(rt; block.word(0x4C80), 0x3C0A_8001);
    // toupper: sll v0, a0, 24; sltiu t0, t0, 26.
    assert_eq!(rt; block.word(0x4D40), 0x0004_1600);
    assert_eq!(rt; block.word(0x4D4C), 0x2D08_001A);
    // tolower: addiu t0, v0, -41h; addiu v0, v0, 20h.
    assert_eq!(rt; block.word(0x4D88), 0x2448_FFBF);
    assert_eq!(rt; block.word(0x4D98), 0x2442_0020);
    Ok(())
}

#[test]
fn places_the_copies(rt: HostRuntime) -> Result<(), Fail> {
    let mut block = KernelBlock::new(rt.alloc())?;
    place(&mut block);
    // strcpy: bne a1, zero, two words on; lui a2, 20h.
    assert_eq!(rt; block.word(0x4DC0), 0x14A0_0002);
    assert_eq!(rt; block.word(0x4E00), 0x3C06_0020);
    // strcat, strncat and strncpy begin with the same words.
    assert_eq!(rt; block.word(0x4EC0), 0x14A0_0002);
    assert_eq!(rt; block.word(0x4FC0), 0x14A0_0002);
    assert_eq!(rt; block.word(0x50C0), 0x14A0_0002);
    // strncat's last word, behind j 80001440h.
    assert_eq!(rt; block.word(0x50BC), 0);
    Ok(())
}

#[test]
fn places_what_compares_and_finds(rt: HostRuntime) -> Result<(), Fail> {
    let mut block = KernelBlock::new(rt.alloc())?;
    place(&mut block);
    // strcmp: bne a0, zero, four words on; addiu t2, zero, 1. strncmp: bne a0, zero; bgtz a2, four words on.
    assert_eq!(rt; block.word(0x51C0), 0x1480_0004);
    assert_eq!(rt; block.word(0x5214), 0x240A_0001);
    assert_eq!(rt; block.word(0x52C0), 0x1480_0004);
    assert_eq!(rt; block.word(0x52E8), 0x1CC0_0004);
    // strchr and strrchr: sll a1, a1, 24; or v0, zero, zero.
    assert_eq!(rt; block.word(0x53D4), 0x0005_2E00);
    assert_eq!(rt; block.word(0x545C), 0x0000_1025);
    // The bytes of a set: beq t0, t6, 35 words on; nop; lbu t4, 0(t0).
    assert_eq!(rt; block.word(0x54C0), 0x110E_0023);
    assert_eq!(rt; block.word(0x54C4), 0);
    assert_eq!(rt; block.word(0x54C8), 0x910C_0000);
    Ok(())
}

#[test]
fn places_the_calls_on_numbers(rt: HostRuntime) -> Result<(), Fail> {
    let mut block = KernelBlock::new(rt.alloc())?;
    place(&mut block);
    // abs: or v0, zero, a0; bgez a0, two words on; subu v0, zero, a0.
    assert_eq!(rt; block.word(0x5900), 0x0004_1025);
    assert_eq!(rt; block.word(0x5904), 0x0481_0002);
    assert_eq!(rt; block.word(0x590C), 0x0004_1023);
    // The blanks: or t7, zero, zero. The digits: beq t0, t6, 34 words on.
    assert_eq!(rt; block.word(0x5940), 0x0000_7825);
    assert_eq!(rt; block.word(0x5A80), 0x110E_0022);
    // strtol and atoi: or v0, zero, zero; bne a0, zero, three words on.
    assert_eq!(rt; block.word(0x5B40), 0x0000_1025);
    assert_eq!(rt; block.word(0x5B44), 0x1480_0003);
    assert_eq!(rt; block.word(0x5C04), 0x1480_0003);
    Ok(())
}

#[test]
fn lends_listings_of_numbers(rt: HostRuntime) {
    assert_eq!(rt; abs().len(), 5);
    assert_eq!(rt; blanks().len(), 25);
    assert_eq!(rt; prefix().len(), 39);
    assert_eq!(rt; digits().len(), 34);
    assert_eq!(rt; strtol().len(), 30);
    assert_eq!(rt; atoi().len(), 15);
}

#[test]
fn lends_listings(rt: HostRuntime) {
    assert_eq!(rt; strlen().len(), 17);
    assert_eq!(rt; toupper().len(), 8);
    assert_eq!(rt; tolower().len(), 8);
    assert_eq!(rt; strcpy().len(), 43);
    assert_eq!(rt; strcat().len(), 51);
    assert_eq!(rt; strncat().len(), 53);
    assert_eq!(rt; strncpy().len(), 42);
    assert_eq!(rt; strcmp().len(), 42);
    assert_eq!(rt; strncmp().len(), 49);
    assert_eq!(rt; strchr().len(), 22);
    assert_eq!(rt; strrchr().len(), 21);
}

#[test]
fn lends_listings_over_sets(rt: HostRuntime) {
    assert_eq!(rt; skip().len(), 31);
    assert_eq!(rt; strpbrk().len(), 23);
    assert_eq!(rt; strspn().len(), 20);
    assert_eq!(rt; strcspn().len(), 20);
    assert_eq!(rt; strtok().len(), 45);
    assert_eq!(rt; strstr().len(), 42);
}

#[test]
fn laws_do_nothing() {
    apart();
    text_serves();
    strcpy_copies();
    strlen_counts_the_bytes_before_the_zero();
    strcmp_answers_0_for_equal_texts_alone();
    no_text_is_as_long_as_the_definitions_go_on();
    tokens();
    strtol_reads_numerals();
    strtol_reads_prefixed();
    atoi_reads_decimals();
}
