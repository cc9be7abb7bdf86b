use kern_image::build;

// Bytes by hand from the R3000A manual's encodings and the memory map.
#[test]
fn holds_known_bytes(rt: HostRuntime) {
    let Ok(image) = build(rt.alloc()) else {
        panic!(rt; "no memory");
    };
    let rom = image.rom();
    assert_eq!(rt; rom.len(), 524_288);
    for (at, byte) in [
        // lui r8, 0xBFC1 at reset
        (0, 0xC1),
        (1, 0xBF),
        (2, 0x08),
        (3, 0x3C),
        // j 0x80001000 at the vector
        (0x10080, 0x00),
        (0x10081, 0x04),
        (0x10082, 0x00),
        (0x10083, 0x08),
        // syscall at each gate
        (0x100A0, 0x0C),
        (0x100B0, 0x0C),
        (0x100C0, 0x0C),
        (0x100D0, 0x0C),
        (0x100E0, 0x0C),
        // table A serves the number 3Ch in the cached segment, and not 05h
        (0x102F3, 0x80),
        (0x10217, 0x00),
        // thread 0 is used, status 4000h, and thread 1 is free, status 1000h
        (0x1B001, 0x40),
        (0x1B0C1, 0x10),
        // file 0 is open for reading, and file 1 for writing
        (0x1E800, 1),
        (0x1E804, 2),
        // the last
        (524_287, 0),
    ] {
        assert_eq!(rt; rom.get(at).copied(), Some(byte), "at {at}");
    }
}
