//! A program's file, cut to each length.
use crate::hosts::{host_of, program};
use psx_base::Out;
use psxk_run::psxk;
use test_hosts::{HELLO, RUN};

// The file of `HELLO` has 2,084 bytes, 2,048 of them its header. Each shorter front of it is refused, and nothing but the report is sent.
#[test]
fn each_front_of_a_file_is_refused(rt: HostRuntime) {
    let file = program(&rt, &HELLO);
    assert_eq!(rt; file.len(), 2_084);
    for length in 0..2_084usize {
        let mut host = host_of(&rt, file.get(..length).expect(&rt, "a front"));
        assert_eq!(rt; psxk(rt.alloc(), &RUN, &mut host), 3, "{length}");
        let report = if length < 2_048 {
            b"psxk: exe: Short\n".as_slice()
        } else {
            b"psxk: exe: Truncated 2084\n".as_slice()
        };
        assert!(rt; host.sent(Out::Report) == report, "{length}");
        for out in [Out::Tty, Out::Trace, Out::Ram] {
            assert!(rt; host.sent(out).is_empty(), "{length}");
        }
    }
}
