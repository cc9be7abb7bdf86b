//! The calls that the kernel serves: which numbers they have, their arguments and names. Its specifications are the written kernel machine's stays:
//! what each entry into the kernel does, as a program that asks the ports and ends in a state or a stop (specs/KernelStep.antt).
//! The kernel's code meets these stays, and the run of the whole machine is made of them.
#![tactic(auto)]

pub mod calls;
pub mod equations;
pub mod heap_laws;
pub mod laws;
pub mod printf_laws;

pub use calls::{CallId, ROWS, Row, args, name, rows, served};
