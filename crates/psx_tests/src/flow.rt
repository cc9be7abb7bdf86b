// Listings and their words, which are by LLVM's assembler for MIPS I; and listings that break one rule each.
use psx_flow::kinds::Tested;
use psx_flow::law::{loads_settle, ops_run, ports_are_told, runs_are_made, words_run};
use psx_flow::listings::tested;
use psx_flow::{Node, Test, lower, size_of, spaced, well};
use psx_ins::ins::Ins;
use psx_ins::reg::Reg;

const ADD_ONE: Node = Node::Op(Ins::ADDIU {
    s: Reg(8),
    t: Reg(8),
    imm: 1,
});

const LOAD: Node = Node::Op(Ins::LW {
    s: Reg(9),
    t: Reg(8),
    imm: 0,
});

const TEST: Test = Test::Same(Reg(8), Reg(9));

#[test]
fn each_node_has_its_words(rt: HostRuntime) {
    let nodes = [
        Node::If(Test::Same(Reg(8), Reg(9))),
        ADD_ONE,
        Node::Other,
        Node::Op(Ins::ADDIU {
            s: Reg(9),
            t: Reg(9),
            imm: 2,
        }),
        Node::Op(Ins::ADDIU {
            s: Reg(9),
            t: Reg(9),
            imm: 3,
        }),
        Node::End,
        Node::If(Test::Differ(Reg(8), Reg(9))),
        Node::Op(Ins::OR {
            s: Reg(0),
            t: Reg(8),
            d: Reg(10),
        }),
        Node::End,
        Node::If(Test::NotAbove(Reg(8))),
        Node::End,
        Node::If(Test::Above(Reg(8))),
        Node::End,
        Node::If(Test::Negative(Reg(8))),
        Node::End,
        Node::If(Test::NotNegative(Reg(8))),
        Node::End,
        Node::While(Test::Above(Reg(8))),
        Node::Op(Ins::ADDIU {
            s: Reg(8),
            t: Reg(8),
            imm: 0xFFFF,
        }),
        Node::End,
        Node::Call(0x8000_3000),
        Node::Jump(0x8000_1F00),
        Node::JumpTo(Reg(31)),
    ];
    assert!(rt; well(&nodes) && spaced(&nodes));
    assert_eq!(rt; size_of(&nodes), 29);
    let mut words = [0xFFFF_FFFF; 29];
    lower(&nodes, 0x8000_2000, &mut words);
    let expected = [
        0x1509_0004,
        0,
        0x2508_0001,
        0x1000_0003,
        0,
        0x2529_0002,
        0x2529_0003, // Same
        0x1109_0002,
        0,
        0x0008_5025, // Differ
        0x1D00_0001,
        0,
        0x1900_0001,
        0,
        0x0501_0001,
        0,
        0x0500_0001,
        0, // the tests of one register
        0x1900_0004,
        0,
        0x2508_FFFF,
        0x1000_FFFC,
        0, // While
        0x0C00_0C00,
        0,
        0x0800_07C0,
        0,
        0x03E0_0008,
        0, // Call, Jump, JumpTo
    ];
    assert!(rt; words == expected);
}

#[test]
fn brackets_go_sixteen_deep(rt: HostRuntime) {
    let open = Node::If(Test::NotNegative(Reg(8)));
    let turn = Node::While(Test::Differ(Reg(8), Reg(9)));
    let end = Node::End;
    let nodes = [
        open, turn, open, turn, open, turn, open, turn, open, turn, open, turn, open, turn, open,
        turn, ADD_ONE, end, end, end, end, end, end, end, end, end, end, end, end, end, end, end,
        end,
    ];
    assert!(rt; well(&nodes));
    let mut words = [0xFFFF_FFFF; 49];
    lower(&nodes, 0x1000, &mut words);
    let expected = [
        0x0500_0030,
        0,
        0x1109_002E,
        0,
        0x0500_002A,
        0,
        0x1109_0028,
        0,
        0x0500_0024,
        0,
        0x1109_0022,
        0,
        0x0500_001E,
        0,
        0x1109_001C,
        0,
        0x0500_0018,
        0,
        0x1109_0016,
        0,
        0x0500_0012,
        0,
        0x1109_0010,
        0,
        0x0500_000C,
        0,
        0x1109_000A,
        0,
        0x0500_0006,
        0,
        0x1109_0004,
        0,
        0x2508_0001,
        0x1000_FFFC,
        0,
        0x1000_FFF6,
        0,
        0x1000_FFF0,
        0,
        0x1000_FFEA,
        0,
        0x1000_FFE4,
        0,
        0x1000_FFDE,
        0,
        0x1000_FFD8,
        0,
        0x1000_FFD2,
        0,
    ];
    assert!(rt; words == expected);
}

#[test]
fn seventeen_are_too_deep(rt: HostRuntime) {
    let mut nodes = [Node::End; 34];
    for node in &mut nodes[..17] {
        *node = Node::If(TEST);
    }
    assert!(rt; !well(&nodes));
    assert!(rt; well(&nodes[1..33]));
}

#[test]
fn brackets_match(rt: HostRuntime) {
    assert!(rt; well(&[]));
    assert!(rt; !well(&[Node::End]));
    assert!(rt; !well(&[Node::Other]));
    assert!(rt; !well(&[Node::If(TEST)]));
    assert!(rt; !well(&[Node::While(TEST), Node::Other, Node::End]));
    assert!(rt; !well(&[Node::If(TEST), Node::Other, Node::Other, Node::End]));
}

#[test]
fn nodes_fit(rt: HostRuntime) {
    let s = Reg(8);
    let t = Reg(9);
    let unfit = [
        Node::Op(Ins::BEQ { s, t, imm: 1 }),
        Node::Op(Ins::JR { s }),
        Node::Op(Ins::JAL { target: 0 }),
        Node::Op(Ins::SYSCALL { code: 0 }),
        Node::Op(Ins::BREAK { code: 0 }),
        Node::Op(Ins::RFE),
        Node::Op(Ins::SLL { t, d: t, n: 32 }),
        Node::Op(Ins::LW {
            s,
            t: Reg(32),
            imm: 0,
        }),
        Node::JumpTo(Reg(32)),
    ];
    for node in unfit {
        assert!(rt; !well(&[node]));
    }
    assert!(rt; !well(&[Node::If(Test::Differ(s, Reg(32))), Node::End]));
    assert!(rt; !well(&[Node::While(Test::Above(Reg(32))), Node::End]));
}

#[test]
fn loads_have_room(rt: HostRuntime) {
    let s = Reg(8);
    let t = Reg(9);
    let crowded = [
        Node::Op(Ins::ADDU { s, t, d: Reg(10) }),
        Node::Op(Ins::LUI { t: s, imm: 1 }),
        Node::Op(Ins::LW { s: t, t: s, imm: 4 }),
        Node::Op(Ins::SB { s: t, t: s, imm: 4 }),
        Node::If(Test::Above(Reg(10))),
        Node::JumpTo(Reg(31)),
        Node::End,
    ];
    for node in crowded {
        assert!(rt; !spaced(&[LOAD, node]));
    }
    assert!(rt; !spaced(&[LOAD]));
    let move_status = Node::Op(Ins::MFC0 { t: s, d: Reg(12) });
    assert!(rt; !spaced(&[move_status, ADD_ONE]));
    assert!(rt;
        spaced(&[
            LOAD,
            Node::Op(Ins::ADDU {
                s: t,
                t,
                d: Reg(10)
            }),
            Node::If(TEST),
            Node::End
        ])
    );
    assert!(rt;
        spaced(&[Node::Op(Ins::LW {
            s,
            t: Reg(0),
            imm: 0
        })])
    );
}

#[test]
fn four_listings_have_their_words(rt: HostRuntime) {
    assert_eq!(rt; size_of(tested(Tested::ReadByte)), 26);
    assert_eq!(rt; size_of(tested(Tested::WriteByte)), 25);
    assert_eq!(rt; size_of(tested(Tested::ReadWord)), 29);
    assert_eq!(rt; size_of(tested(Tested::WriteWord)), 28);
}

#[test]
fn laws_do_nothing() {
    loads_settle();
    words_run();
    runs_are_made();
    ops_run();
    ports_are_told();
}
