//! The run of the written kernel machine, and the law that leads to it from a ROM that serves: each run of the board, with any program, schedule, sizes and budget,
//! is such a run. Its definitions are `specs/Serves.antt` (what is asked of a ROM) and `specs/KernelRun.antt` (which traces, console bytes and memories the machine has).
//! The image's crate shows that its ROM serves, and the top call's promise follows by these laws.
#![tactic(auto)]

pub mod coverage;
pub mod laws;

pub use coverage::{Coverage, Everything};
