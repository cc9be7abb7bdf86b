use crate::{KernelBlock, Range, places, put_opening, ranges};
use std::test::Fail;

fn range(from: u32, to: u32) -> Range {
    Range { from, to }
}

#[test]
fn words_of_a_block(rt: HostRuntime) -> Result<(), Fail> {
    let mut block = KernelBlock::new(rt.alloc()).expect(&rt, "memory");
    block.put_word(0x200, 0x8000_3C00);
    block.put_word(0xFFFC, 7);
    assert_eq!(rt; block.word(0x200), 0x8000_3C00);
    assert_eq!(rt; block.word(0x204), 0);
    assert_eq!(rt; block.word(0xFFFC), 7);
    Ok(())
}

#[test]
fn ranges_of_the_layout(rt: HostRuntime) -> Result<(), Fail> {
    let table = [
        range(0x80, 0xA0),
        range(0xA0, 0xA4),
        range(0xB0, 0xB4),
        range(0xC0, 0xC4),
        range(0xD0, 0xD4),
        range(0xE0, 0xE4),
        range(0x200, 0x500),
        range(0x674, 0x6F4),
        range(0x874, 0x9F0),
        range(0x1000, 0x2000),
        range(0x2000, 0x2800),
        range(0x2800, 0x3800),
        range(0x3800, 0x3C00),
        range(0x3C00, 0x4C00),
        range(0x4C00, 0x6400),
        range(0x6400, 0x7C00),
        range(0x7C00, 0x8C00),
        range(0x8C00, 0xA000),
        range(0xA000, 0xB000),
        range(0xB000, 0xBC00),
        range(0xBC00, 0xC300),
        range(0xC300, 0xCF00),
        range(0xCF00, 0xD000),
        range(0xD000, 0xE800),
        range(0xE800, 0xE900),
        range(0xE900, 0xEA00),
        range(0xEA00, 0xEB00),
        range(0xEB00, 0xF000),
    ];
    assert_eq!(rt; ranges::RANGES.as_slice(), table.as_slice());
    Ok(())
}

#[test]
fn blocks_of_the_layout(rt: HostRuntime) -> Result<(), Fail> {
    let thread = [
        places::THREAD_SIZE,
        places::THREAD_STATUS,
        places::SAVED_REGISTERS,
        places::SAVED_PC,
        places::SAVED_HI,
        places::SAVED_LO,
        places::SAVED_SR,
        places::THREAD_CAUSE,
    ];
    assert_eq!(rt; thread, [0xC0, 0, 8, 0x88, 0x8C, 0x90, 0x94, 0x98]);
    let event = [
        places::EVENT_SIZE,
        places::EVENT_CLASS,
        places::EVENT_STATUS,
        places::EVENT_SPEC,
        places::EVENT_MODE,
        places::EVENT_FUNCTION,
    ];
    assert_eq!(rt; event, [0x1C, 0, 4, 8, 0xC, 0x10]);
    let others = [
        places::FRAME_SIZE,
        places::CHAIN_SIZE,
        places::HEAP_ENTRIES,
        places::HEAP_ENTRY_SIZE,
        places::FILE_SIZE,
    ];
    assert_eq!(rt; others, [0x180, 0x40, 512, 12, 4]);
    Ok(())
}

#[test]
fn opening_block(rt: HostRuntime) -> Result<(), Fail> {
    let mut block = KernelBlock::new(rt.alloc()).expect(&rt, "memory");
    put_opening(&mut block);
    // Thread 0 is used, and the last one is free.
    assert_eq!(rt; [block.word(0xB000), block.word(0xBB40)], [0x4000, 0x1000]);
    // No event, no frame, no element.
    assert_eq!(rt;
        [block.word(0xBC04), block.word(0xEA08), block.word(0xCF00)],
        [0, 0, 0]
    );
    // Files 0 and 1 are open, file 2 isn't.
    assert_eq!(rt;
        [block.word(0xE800), block.word(0xE804), block.word(0xE808)],
        [1, 2, 0]
    );
    // The heap has no block, and its entries are linked from the first to the last.
    assert_eq!(rt; [block.word(0xEA40), block.word(0xEA44)], [0, 0xD000]);
    assert_eq!(rt;
        [block.word(0xD000), block.word(0xE7E8), block.word(0xE7F4)],
        [0xD00C, 0xE7F4, 0]
    );
    Ok(())
}
