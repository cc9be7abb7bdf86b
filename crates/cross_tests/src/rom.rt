//! The kernel's words, printed and assembled again.
use kern_image::build;
use psx_asm::assemble;
use psx_dis::print;

#[test]
fn the_kernel_assembles_back(rt: HostRuntime) {
    let image = build(rt.alloc()).expect(&rt, "room");
    let code = &image.rom()[0x11000..0x1A000];
    let mut words = Vec::new(rt.alloc());
    for word in code.chunks_exact(4) {
        let [a, b, c, d] = [word[0], word[1], word[2], word[3]];
        words
            .push(u32::from_le_bytes([a, b, c, d]))
            .expect(&rt, "room");
    }
    assert_eq!(rt; words.len(), 0x2400);
    let text = print(rt.alloc(), 0x8000_1000, &words).expect(&rt, "room");
    let object = assemble(rt.alloc(), text.as_bytes(), 0x8000_1000, 0x8000_9FFF).expect(
        &rt, "room",
    );
    let mut placed = Vec::new(rt.alloc());
    for part in object.parts.as_slice() {
        assert_eq!(rt; part.at as usize, 0x8000_1000 + placed.len());
        placed
            .extend_from_slice(part.bytes.as_slice())
            .expect(&rt, "room");
    }
    assert_eq!(rt; placed.as_slice(), code);
    assert_eq!(rt; object.start, None);
}
