//! The hosts that the tests begin with.
use psx_base::MemoryHost;
use std::process::Abort;

// A program's file.
pub(crate) fn program<R: AllocGlobal + Abort>(rt: &R, words: &[u32]) -> Vec<u8> {
    test_hosts::program(rt.alloc(), words).expect(rt, "room")
}

// A host that holds the program `a.exe`.
pub(crate) fn host_of<R: AllocGlobal + Abort>(rt: &R, file: &[u8]) -> MemoryHost {
    test_hosts::host_of(rt.alloc(), file).expect(rt, "room")
}

// A host that holds the program of these words as `a.exe`, and its schedule as `s`.
pub(crate) fn host_with_schedule<R: AllocGlobal + Abort>(
    rt: &R,
    words: &[u32],
    schedule: &[u8],
) -> MemoryHost {
    let mut host = host_of(rt, &program(rt, words));
    host.put("s", schedule).expect(rt, "put");
    host
}
