//! Memory on the happy path.
ghost use Rattle.std.specs.Prelude.{◌≡◌, IfOk, length};

use super::*;
use std::test::Fail;

fn bytes(alloc: Global, value: u8, len: usize) -> Result<Vec<u8>, AllocError>
    ensures { IfOk result (λ v. length v.items ≡ len) }
{
    Ok(vec![in alloc; value; len]?)
}

#[test]
fn reads_what_was_written(rt: HostRuntime) -> Result<(), Fail> {
    let rom = bytes(rt.alloc(), 0x24, 0x8_0000)?;
    let mut ram = Ram::new(rt.alloc(), &rom)?;
    ram.set_word(0x1000, 0x1234_5678);
    assert_eq!(rt; ram.byte(0x1000), 0x78);
    assert_eq!(rt; ram.byte(0x1003), 0x12);
    assert_eq!(rt; ram.half(0x1002), 0x1234);
    ram.set_half(0x1F80_0002, 0xBEEF);
    ram.set_byte(0x1F80_0001, 0x7F);
    assert_eq!(rt; ram.word(0x1F80_0000), 0xBEEF_7F00);
    assert_eq!(rt; ram.word(0x1FC7_FFFC), 0x2424_2424);
    Ok(())
}

#[test]
fn loads_fills_and_lends(rt: HostRuntime) -> Result<(), Fail> {
    let rom = bytes(rt.alloc(), 0, 0x8_0000)?;
    let mut ram = Ram::new(rt.alloc(), &rom)?;
    ram.load(0x1F_FFFC, &[1, 2, 3, 4]);
    assert_eq!(rt; ram.word(0x1F_FFFC), 0x0403_0201);
    ram.fill(0x1F_FFFD, 2);
    assert_eq!(rt; ram.word(0x1F_FFFC), 0x0400_0001);
    assert_eq!(rt; ram.main().len(), 0x20_0000);
    assert_eq!(rt; ram.scratchpad().len(), 0x400);
    assert!(rt; mapped(0x1F_FFFC, 4) && !mapped(0x1F_FFFD, 4) && !mapped(0xFFFF_FFFF, 1));
    Ok(())
}
