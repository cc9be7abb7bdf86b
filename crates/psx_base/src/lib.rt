//! Addresses, stops and hosts: what every crate above stands on.
//! Its specifications hold the plain data that several crates speak of: memory, registers and contexts, the items of a trace and the kernel's state.
#![tactic(auto)]

pub mod address;
mod files;
pub mod host;
pub mod memory_host;
pub mod no_fail_host;
pub mod ports;
pub mod stop;
#[cfg(test)]
mod tests;

pub use address::{Addr, Gate, Segment, first_bad};
pub use host::{Host, LoadError, Out, SendError};
pub use memory_host::MemoryHost;
pub use no_fail_host::NoFailHost;
pub use ports::is_port;
pub use stop::{Memory, Sizes, Stop, Table};
