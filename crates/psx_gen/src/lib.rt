//! The workload: a program that waits, changes threads, and takes and frees blocks of the heap, round by round, and the schedule that begins each round.
//! It meets the definition of the workload (`specs/Workload.antt`). The top call runs it by the command `gen`.
#![tactic(auto)]

mod generate;
mod source;
mod words;

pub use generate::workload;
pub use source::SOURCE;
pub use words::WORDS;
