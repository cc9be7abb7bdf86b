//! The programs and hosts of test_hosts, for tests that end where there is no room for one.
use psx_base::MemoryHost;
use std::process::Abort;

// A program's file.
pub(crate) fn program<R: AllocGlobal + Abort>(rt: &R, words: &[u32]) -> Vec<u8> {
    test_hosts::program(rt.alloc(), words).expect(rt, "room")
}

// A host that holds one file.
pub(crate) fn host_with<R: AllocGlobal + Abort>(rt: &R, name: &str, file: &[u8]) -> MemoryHost {
    test_hosts::host_with(rt.alloc(), name, file).expect(rt, "room")
}

// A host that holds the program `a.exe`.
pub(crate) fn host_of<R: AllocGlobal + Abort>(rt: &R, file: &[u8]) -> MemoryHost {
    test_hosts::host_of(rt.alloc(), file).expect(rt, "room")
}
