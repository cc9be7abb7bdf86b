ghost use Rattle.std.specs.Prelude.{◌≤◌, length};

use crate::{Exe, ExeError, Text};
use byteorder::{ByteOrder, LittleEndian};
use std::test::Fail;

// Writes a header of these numbers: pc, destination, size, fill start, fill size.
fn put_header(file: &mut [u8], numbers: [u32; 5])
    requires { 0x800 ≤ length file.old }
{
    let [pc, dest, size, fill_start, fill_size] = numbers;
    file[..8].copy_from_slice(b"PS-X EXE");
    LittleEndian::write_u32(&mut file[0x10..], pc);
    LittleEndian::write_u32(&mut file[0x18..], dest);
    LittleEndian::write_u32(&mut file[0x1C..], size);
    LittleEndian::write_u32(&mut file[0x28..], fill_start);
    LittleEndian::write_u32(&mut file[0x2C..], fill_size);
}

#[test]
fn headers_at_the_edges(rt: HostRuntime) -> Result<(), Fail> {
    let start = 0x8001_0000;
    let cases = [
        ([start, start, 0, 0, 0], None),
        ([start, 0x801F_FFFF, 0, 0, 0], None),
        ([start, 0x801F_FFFC, 4, 0x9F80_0000, 0x400], None),
        (
            [start, 0x8000_FFFC, 0x800, 0, 0],
            Some(ExeError::TextRange { at: 0x8000_FFFC }),
        ),
        (
            [start, start, 0x800, 0, 0],
            Some(ExeError::Truncated { need: 4096 }),
        ),
        (
            [start, start, u32::MAX, 0, 0],
            Some(ExeError::TextRange { at: 0x8020_0000 }),
        ),
        (
            [start, u32::MAX, 4, 0, 0],
            Some(ExeError::TextRange { at: u32::MAX }),
        ),
        (
            [start, start, 0, 0x8020_0000, 4],
            Some(ExeError::FillRange { at: 0x8020_0000 }),
        ),
        (
            [0x8001_0002, start, 0, 0, 0],
            Some(ExeError::BadPc { pc: 0x8001_0002 }),
        ),
        ([0x1F80_0000, start, 0, 0, 0], None),
        ([0x9F80_03FC, start, 0, 0, 0], None),
        (
            [0xBF80_0000, start, 0, 0, 0],
            Some(ExeError::BadPc { pc: 0xBF80_0000 }),
        ),
    ];
    let mut file = vec![in rt.alloc(); 0; 2052]?;
    for (numbers, error) in cases {
        put_header(&mut file, numbers);
        assert_eq!(rt; Exe::read(rt.alloc(), &file).err(), error);
    }
    file[0] = b'p';
    assert_eq!(rt; Exe::read(rt.alloc(), &file).err(), Some(ExeError::NoMark));
    let long = vec![in rt.alloc(); 0; 8_388_609]?;
    assert_eq!(rt;
        Exe::read(rt.alloc(), &long).err(),
        Some(ExeError::TooLong { limit: 8_388_608 })
    );
    Ok(())
}

// A program that writes the letter A and ends.
const WORDS: [u8; 36] = [
    0x41, 0x00, 0x04, 0x24, 0x3C, 0x00, 0x09, 0x24, 0xA0, 0x00, 0x0A, 0x24, 0x09, 0xF8, 0x40, 0x01,
    0x00, 0x00, 0x00, 0x00, 0x00, 0x00, 0x04, 0x24, 0x06, 0x00, 0x09, 0x24, 0x08, 0x00, 0x40, 0x01,
    0x00, 0x00, 0x00, 0x00,
];

#[test]
fn a_file_of_nine_words(rt: HostRuntime) -> Result<(), Fail> {
    let mut file = vec![in rt.alloc(); 0; 2048]?;
    put_header(&mut file, [0x8001_0000, 0x8001_0000, 36, 0, 0]);
    file.extend_from_slice(&WORDS)?;
    let exe = Exe::read(rt.alloc(), &file).expect(&rt, "a program");
    assert_eq!(rt;
        (exe.pc, exe.dest, exe.text.len(), exe.text.is_empty()),
        (0x8001_0000, 0x8001_0000, 36, false)
    );
    let made = Exe {
        text: Text::from_slice(rt.alloc(), &WORDS).expect(&rt, "memory"),
        ..exe
    };
    let bytes = made.write(rt.alloc()).expect(&rt, "memory");
    assert_eq!(rt; bytes.as_slice(), file.as_slice());
    for len in 0..file.len() {
        let error = if len < 2048 {
            ExeError::Short
        } else {
            ExeError::Truncated { need: 2084 }
        };
        assert_eq!(rt; Exe::read(rt.alloc(), &file[..len]).err(), Some(error));
    }
    Ok(())
}
