//! Addresses at the edges, and the hosts on their happy path and at their faults.
use super::*;
use std::test::Fail;

#[test]
fn addresses_at_the_edges(rt: HostRuntime) {
    for (at, want) in [
        (0xFFFF, [false; 3]),
        (0x1_0000, [true; 3]),
        (0x1F_FFFF, [true; 3]),
        (0x20_0000, [false; 3]),
        (0x1F80_0000, [true, true, false]),
        (0x1FC0_0000, [false; 3]),
    ] {
        let seen = [0, 0x8000_0000, 0xA000_0000].map(|segment| Addr(segment | at).is_user());
        assert_eq!(rt; seen, want, "at {at}");
    }
    assert_eq!(rt; Addr(0xBFC0_0000).segment(), Some(Segment::Uncached));
    assert_eq!(rt; Addr(0xBFC0_0000).physical(), Some(0x1FC0_0000));
    assert_eq!(rt; Addr(0xC000_0000).segment(), None);
    assert_eq!(rt; Addr(0xC000_0000).physical(), None);
    assert_eq!(rt; Addr(0xBFC0_0000).place(), 0x1FC0_0000);
    assert_eq!(rt; Addr(0xC000_0000).place(), 0x2000_0000);
    assert!(rt; !Addr(0xC001_0000).is_user());
}

#[test]
fn gates(rt: HostRuntime) {
    for (at, want) in [
        (0xA0, Some(Gate::A)),
        (0x8000_00B0, Some(Gate::B)),
        (0xA000_00C0, Some(Gate::C)),
        (0x8000_00D0, Some(Gate::Done)),
        (0xE0, Some(Gate::Back)),
        (0xA4, None),
        (0xC000_00A0, None),
    ] {
        assert_eq!(rt; Addr(at).gate(), want, "at {at}");
    }
}

#[test]
fn first_bad_of_ranges(rt: HostRuntime) {
    for (start, len, want) in [
        (0x8000_FFFC, 0x800, Some(0x8000_FFFC)),
        (0x801F_FFFE, 4, Some(0x8020_0000)),
        (0x801F_FFFE, 2, None),
        (0x1F80_03FF, 2, Some(0x1F80_0400)),
        (0, 0, None),
        (0xFFFF_FFFE, 4, Some(0xFFFF_FFFE)),
        (0x8001_0000, 4_294_967_295, Some(0x8020_0000)),
    ] {
        assert_eq!(rt; first_bad(start, len), want, "from {start}");
    }
}

#[test]
fn ports(rt: HostRuntime) {
    for at in [
        ports::I_STAT,
        ports::I_MASK,
        ports::COUNTERS,
        0x1F80_1118,
        0x1F80_1128,
        ports::CONSOLE_STATUS,
        ports::CONSOLE_DATA,
        ports::HALT_A,
        ports::HALT_B,
        ports::HALT_C,
        ports::HALT,
        ports::START_PC,
        ports::START_GP,
        ports::START_SP,
        ports::START_THREADS,
        ports::START_EVENTS,
    ] {
        assert!(rt;
            is_port(at) && !is_port(at + 1) && !is_port(at - 1),
            "at {at}"
        );
    }
    for at in [
        0x1F80_106C,
        0x1F80_1078,
        0x1F80_10FC,
        0x1F80_110C,
        0x1F80_112C,
        0x1F80_20FC,
        0x1F80_212C,
        0x9F80_1070,
    ] {
        assert!(rt; !is_port(at), "at {at}");
    }
}

#[test]
fn memory_host_loads(rt: HostRuntime) -> Result<(), Fail> {
    let mut host = MemoryHost::new(rt.alloc(), 4)?;
    host.put("a.exe", b"one")?;
    host.put("a.exe", b"three")?;
    host.fail_load(4)?;
    assert_eq!(rt;
        host.load(rt.alloc(), "a.exe", 8)?.as_slice(),
        b"three".as_slice()
    );
    assert_eq!(rt;
        host.load(rt.alloc(), "a.exe", 2)?.as_slice(),
        b"thr".as_slice()
    );
    assert_eq!(rt; host.load(rt.alloc(), "b.exe", 8), Err(LoadError::Failed));
    assert_eq!(rt; host.load(rt.alloc(), "a.exe", 8), Err(LoadError::Failed));
    assert_eq!(rt;
        host.load(rt.alloc(), "a.exe", 8)?.as_slice(),
        b"three".as_slice()
    );
    assert_eq!(rt; (host.load_faults(), host.send_faults()), (2, 0));
    Ok(())
}

#[test]
fn memory_host_sends(rt: HostRuntime) -> Result<(), Fail> {
    let mut host = MemoryHost::new(rt.alloc(), 4)?;
    host.fail_send(1, 2)?;
    assert_eq!(rt; host.send(Out::Tty, b"abc"), Err(SendError::Failed));
    assert_eq!(rt; host.sent(Out::Tty), b"ab".as_slice());
    assert_eq!(rt; host.send(Out::Tty, b"c"), Ok(()));
    assert_eq!(rt; host.send(Out::Tty, b"de"), Err(SendError::Failed));
    assert_eq!(rt; host.sent(Out::Tty), b"abcd".as_slice());
    assert_eq!(rt; host.send(Out::Ram, b"1234"), Ok(()));
    assert_eq!(rt; host.sent(Out::Ram), b"1234".as_slice());
    assert_eq!(rt; host.sent(Out::Report), b"".as_slice());
    assert_eq!(rt; (host.load_faults(), host.send_faults()), (0, 2));
    Ok(())
}

#[test]
fn no_fail_host(rt: HostRuntime) -> Result<(), Fail> {
    let mut host = NoFailHost::new(rt.alloc());
    host.put("a.exe", b"three")?;
    assert_eq!(rt;
        host.load(rt.alloc(), "a.exe", 2)?.as_slice(),
        b"thr".as_slice()
    );
    assert_eq!(rt;
        host.load(rt.alloc(), "b.exe", 2)?.as_slice(),
        b"".as_slice()
    );
    assert_eq!(rt; host.send(Out::Tty, b"abc"), Ok(()));
    Ok(())
}
