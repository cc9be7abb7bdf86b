//! The board: the processor with its memory, ports and schedule, stepped one instruction at a time.
//! Each step is a turn of the machine that the specifications define (`specs/Turn.antt`), and a run of steps is its run; the top call runs it.
#![tactic(auto)]

pub mod board;
mod devices;
pub mod law;

pub use board::Board;
