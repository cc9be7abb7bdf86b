//! The host over real files: a test runs in a folder that is empty at first.
use crate::file_host::FileHost;
use psx_base::{Host, LoadError, Out};
use std::fs;

#[test]
fn keeps_real_files(rt: HostRuntime) {
    let alloc = rt.alloc();
    fs::write(&rt, "a.bin", b"12345".as_slice()).expect(&rt, "write");
    let mut host = FileHost::new(&rt);
    let front = host.load(alloc, "a.bin", 2);
    assert!(rt; matches!(&front, Ok(bytes) if bytes.as_slice() == b"123".as_slice()));
    let whole = host.load(alloc, "a.bin", 5);
    assert!(rt; matches!(&whole, Ok(bytes) if bytes.as_slice() == b"12345".as_slice()));
    assert!(rt; matches!(host.load(alloc, "absent", 2), Err(LoadError::Failed)));
    assert!(rt; matches!(host.load(alloc, ".", 2), Err(LoadError::Failed)));
    assert!(rt; host.send(Out::Trace, b"one ").is_ok());
    assert!(rt; host.send(Out::Ram, b"four").is_ok());
    assert!(rt; host.send(Out::Trace, b"two").is_ok());
    let text = fs::read_to_string(&rt, "psxk.trace").expect(&rt, "read");
    assert_eq!(rt; text.as_str(), "one two");
    let mut later = FileHost::new(&rt);
    assert!(rt; later.send(Out::Trace, b"3").is_ok());
    assert!(rt; later.send(Out::Ram, b"5").is_ok());
    let text = fs::read_to_string(&rt, "psxk.trace").expect(&rt, "read");
    assert_eq!(rt; text.as_str(), "3");
    let bytes = fs::read_to_string(&rt, "psxk.bin").expect(&rt, "read");
    assert_eq!(rt; bytes.as_str(), "5");
}
