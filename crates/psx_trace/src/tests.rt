//! Lines and texts of stops that stand in the repository's description of a trace.

use crate::{Entered, Item, Regs, Trace, TraceError, line_of, stop_text};
use psx_base::{Stop, Table};
use std::test::Fail;

const WORDS: [u32; 31] = [
    1,
    2,
    3,
    4,
    5,
    6,
    7,
    8,
    9,
    10,
    11,
    12,
    13,
    14,
    15,
    16,
    17,
    18,
    19,
    20,
    21,
    22,
    23,
    24,
    25,
    26,
    27,
    28,
    29,
    30,
    0x8001_0014,
];

#[test]
fn a_line_has_the_letter_and_the_fields(rt: HostRuntime) {
    let entry = Item::E {
        count: 5,
        cause: 0x20,
        epc: 0xA0,
        gate: Entered::A,
        number: 0x3C,
    };
    let lines: [(Item, &[u8]); 5] = [
        (Item::B { count: 98304 }, b"B 98304\n"),
        (entry, b"E 5 00000020 000000A0 A 0000003C\n"),
        (
            Item::R {
                count: 0,
                at: 0x1F80_1070,
                value: 1,
            },
            b"R 0 1F801070 00000001\n",
        ),
        (
            Item::W {
                count: 10,
                at: 0x1F80_1070,
                value: 0xFFFF_FFFE,
            },
            b"W 10 1F801070 FFFFFFFE\n",
        ),
        (
            Item::S {
                count: u64::MAX,
                stop: Stop::Exit { code: 0 },
            },
            b"S 18446744073709551615 Exit 00000000\n",
        ),
    ];
    for (item, text) in lines {
        let line = line_of(item);
        assert!(rt; line.as_slice() == text);
    }
}

#[test]
fn an_entry_has_the_letter_of_its_gate(rt: HostRuntime) {
    let lines: [(Entered, &[u8]); 8] = [
        (Entered::A, b"E 1 00000020 000000A0 A 0000003C\n"),
        (Entered::B, b"E 1 00000020 000000A0 B 0000003C\n"),
        (Entered::C, b"E 1 00000020 000000A0 C 0000003C\n"),
        (Entered::Sys, b"E 1 00000020 000000A0 Y 0000003C\n"),
        (Entered::Interrupt, b"E 1 00000020 000000A0 I 0000003C\n"),
        (Entered::Done, b"E 1 00000020 000000A0 P 0000003C\n"),
        (Entered::Back, b"E 1 00000020 000000A0 K 0000003C\n"),
        (Entered::Trap, b"E 1 00000020 000000A0 T 0000003C\n"),
    ];
    for (gate, text) in lines {
        let line = line_of(Item::E {
            count: 1,
            cause: 0x20,
            epc: 0xA0,
            gate,
            number: 0x3C,
        });
        assert!(rt; line.as_slice() == text);
    }
}

#[test]
fn a_return_has_all_registers(rt: HostRuntime) {
    let item = Item::X {
        count: 7,
        pc: 0x8001_0014,
        sr: 0x401,
        hi: 0xABCD,
        lo: 0xEF,
        regs: Regs(WORDS),
    };
    let line = line_of(item);
    let text: &[u8] =
        b"X 7 80010014 00000401 0000ABCD 000000EF 00000001 00000002 00000003 00000004 00000005 00000006 00000007 00000008 00000009 0000000A 0000000B 0000000C 0000000D 0000000E 0000000F 00000010 00000011 00000012 00000013 00000014 00000015 00000016 00000017 00000018 00000019 0000001A 0000001B 0000001C 0000001D 0000001E 80010014\n";
    assert!(rt; line.as_slice() == text);
}

const AT: u32 = 0x8001_0000;

const RA: u32 = 0x8001_0014;

// Each stop, and its text.
const STOPS: [(Stop, &[u8]); 12] = [
    (Stop::Exit { code: 0x17 }, b"Exit 00000017"),
    (Stop::Budget, b"Budget"),
    (Stop::UserFetch { at: 0x8020_0000 }, b"UserFetch 80200000"),
    (
        Stop::UserData { pc: AT, at: 0 },
        b"UserData 80010000 00000000",
    ),
    (Stop::Protected { pc: AT }, b"Protected 80010000"),
    (Stop::SlotBranch { pc: AT }, b"SlotBranch 80010000"),
    (
        Stop::Exception {
            code: 4,
            pc: 0x8001_0004,
        },
        b"Exception 00000004 80010004",
    ),
    (
        Stop::Unserved {
            table: Table::A,
            number: 0x31,
            ra: RA,
        },
        b"Unserved A 00000031 80010014",
    ),
    (
        Stop::BadPointer {
            at: 0x8020_0000,
            ra: RA,
        },
        b"BadPointer 80200000 80010014",
    ),
    (
        Stop::BadThread {
            number: 0xFF00_0003,
            ra: RA,
        },
        b"BadThread FF000003 80010014",
    ),
    (Stop::Deep { ra: RA }, b"Deep 80010014"),
    (Stop::BadReturn { ra: RA }, b"BadReturn 80010014"),
];

#[test]
fn a_stop_has_its_name_and_its_fields(rt: HostRuntime) {
    for (stop, text) in STOPS {
        let written = stop_text(stop);
        assert!(rt; written.as_slice() == text);
    }
}

#[test]
fn each_item_and_each_stop_is_read_back(rt: HostRuntime) -> Result<(), Fail> {
    let mut items = Vec::new(rt.alloc());
    items.push(Item::B { count: 1 })?;
    items.push(Item::E {
        count: 2,
        cause: 0x20,
        epc: 0xA0,
        gate: Entered::C,
        number: 0x3C,
    })?;
    items.push(Item::R {
        count: 3,
        at: 0x1F80_1070,
        value: 1,
    })?;
    items.push(Item::W {
        count: 4,
        at: 0x1F80_1074,
        value: 0xFFFF_FFFE,
    })?;
    items.push(Item::X {
        count: 5,
        pc: AT,
        sr: 0x401,
        hi: 0xABCD,
        lo: 0xEF,
        regs: Regs(WORDS),
    })?;
    for (stop, _) in STOPS {
        items.push(Item::S { count: 6, stop })?;
    }
    let mut text = Vec::new(rt.alloc());
    for item in items.iter() {
        text.extend_from_slice(line_of(*item).as_slice())?;
    }
    assert!(rt; text.len() < 1_000);
    let read = Trace::read(rt.alloc(), &text);
    assert!(rt; matches!(&read, Ok(read) if read.as_slice() == items.as_slice()));
    Ok(())
}

#[test]
fn a_trace_is_read_to_its_items(rt: HostRuntime) {
    let text =
        b"B 98304\nE 98309 00000020 000000A0 A 0000003C\nW 98500 1F801070 FFFFFFFE\nS 98600 Unserved A 00000031 80010014\n";
    let entry = Item::E {
        count: 98309,
        cause: 0x20,
        epc: 0xA0,
        gate: Entered::A,
        number: 0x3C,
    };
    let stop = Stop::Unserved {
        table: Table::A,
        number: 0x31,
        ra: 0x8001_0014,
    };
    let items = Trace::read(rt.alloc(), text);
    let Ok(items) = items else {
        panic!(rt; "no items");
    };
    let written = Item::W {
        count: 98500,
        at: 0x1F80_1070,
        value: 0xFFFF_FFFE,
    };
    assert!(rt;
        items.as_slice()
            == [
                Item::B { count: 98304 },
                entry,
                written,
                Item::S { count: 98600, stop }
            ]
            .as_slice()
    );
}

#[test]
fn the_first_bad_line_is_told(rt: HostRuntime) {
    let texts: [(&[u8], u32); 6] = [
        (b"B 07\n", 1),
        (b"B 7", 1),
        (b"\n", 1),
        (b"B 18446744073709551616\n", 1),
        (b"B 7\nR 8 1F801070 0000000a\n", 2),
        (b"B 7\nS 9 Budget\nS 9  Budget\n", 3),
    ];
    for (text, line) in texts {
        let read = Trace::read(rt.alloc(), text);
        assert!(rt; matches!(&read, Err(TraceError::BadLine { line: told }) if *told == line));
    }
}
