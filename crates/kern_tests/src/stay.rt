//! Words of the listings that each crate places, encoded by hand from the R3000A manual's instruction formats.
use kern_layout::KernelBlock;
use kern_stay::copy::{copy, switches};
use kern_stay::copy_half::copy_half;
use kern_stay::placing::{put_listing, put_words};
use kern_stay::room::{room, room_is_left};
use std::test::Fail;

#[test]
fn places_listings(rt: HostRuntime) -> Result<(), Fail> {
    let mut block = KernelBlock::new(rt.alloc())?;
    put_listing(&mut block, 0x8000_3C00, room());
    put_listing(&mut block, 0x8000_3D00, copy());
    put_listing(&mut block, 0x8000_3F00, copy_half());
    put_words(&mut block, 0x3E00, &[0x0000_000C, 0x4200_0010]);
    // ROOM: lui r10, 8001h; subu r10, r8, r10.
    assert_eq!(rt; block.word(0x3C00), 0x3C0A_8001);
    assert_eq!(rt; block.word(0x3C04), 0x010A_5023);
    // COPY: beq r8, r10, behind the loop; nop; lw r12, 0(r8).
    assert_eq!(rt; block.word(0x3D00), 0x110A_0007);
    assert_eq!(rt; block.word(0x3D04), 0);
    assert_eq!(rt; block.word(0x3D08), 0x8D0C_0000);
    // COPY_HALF: lw r10, 0(r8); lw r11, 4(r8); sw r10, 0(r9); at its end addiu r9, r9, 68; jr r31.
    assert_eq!(rt; block.word(0x3F00), 0x8D0A_0000);
    assert_eq!(rt; block.word(0x3F04), 0x8D0B_0004);
    assert_eq!(rt; block.word(0x3F08), 0xAD2A_0000);
    assert_eq!(rt; block.word(0x3F94), 0x2529_0044);
    assert_eq!(rt; block.word(0x3F98), 0x03E0_0008);
    // syscall; rfe.
    assert_eq!(rt; block.word(0x3E00), 0x0000_000C);
    assert_eq!(rt; block.word(0x3E04), 0x4200_0010);
    Ok(())
}

#[test]
fn laws_do_nothing() {
    room_is_left();
    switches();
}
