use crate::{Entry, SchedError, Schedule, What};
use std::test::Fail;

#[test]
fn entries_in_order(rt: HostRuntime) -> Result<(), Fail> {
    let byte = Entry {
        count: 5,
        what: What::Byte(0x0A),
    };
    let line = Entry {
        count: 4_000_000_000,
        what: What::Line(10),
    };
    let mut schedule = Schedule::new(rt.alloc());
    schedule.push(byte).expect(&rt, "memory");
    schedule.push(line).expect(&rt, "memory");
    assert_eq!(rt; schedule.entries(), [byte, line].as_slice());
    let text = schedule.write(rt.alloc()).expect(&rt, "memory");
    assert_eq!(rt;
        text.as_slice(),
        b"5 byte 0A\n4000000000 line 10\n".as_slice()
    );
    Ok(())
}

#[test]
fn two_entries_read_and_written(rt: HostRuntime) -> Result<(), Fail> {
    let text = b"5 byte 0A\n7 line 0\n";
    let schedule = Schedule::read(rt.alloc(), text).expect(&rt, "two lines");
    let byte = Entry {
        count: 5,
        what: What::Byte(0x0A),
    };
    let line = Entry {
        count: 7,
        what: What::Line(0),
    };
    assert_eq!(rt; schedule.entries(), [byte, line].as_slice());
    let written = schedule.write(rt.alloc()).expect(&rt, "memory");
    assert_eq!(rt; written.as_slice(), text.as_slice());
    Ok(())
}

#[test]
fn texts_that_are_no_schedule(rt: HostRuntime) {
    let fault = |text: &[u8]| match Schedule::read(rt.alloc(), text) {
        Ok(_) => None,
        Err(fault) => Some(fault),
    };
    assert_eq!(rt; fault(b""), None);
    assert_eq!(rt;
        fault(b"7 line 0\n5 byte 0A\n"),
        Some(SchedError::OutOfOrder { line: 2 })
    );
    assert_eq!(rt;
        fault(b"5 byte 0a\n"),
        Some(SchedError::BadLine { line: 1 })
    );
    assert_eq!(rt;
        fault(b"5 byte 0A\n7 line 0"),
        Some(SchedError::BadLine { line: 2 })
    );
}
