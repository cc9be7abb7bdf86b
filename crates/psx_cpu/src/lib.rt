//! The processor: one step is the effect of an instruction, an exception or an interrupt, or is barred by the guard, as the specifications say.
//! The board steps it; the listings of the kernel stand on its effects.
#![tactic(auto)]

mod access;
mod arithmetic;
pub mod cpu;
mod data;
mod outcomes;
mod peek;
mod perform;
pub mod step;

pub use cpu::Cpu;
pub use step::{BusAnswer, Did, PortRead};
