//! The top call: what the program does with the words of its command line, over any host.
//! A run's texts are those of the board's run of the image; the program `psxk` gives it a host over real files.
#![tactic(auto)]

mod assembling;
pub mod command;
pub mod configuration;
pub mod inputs;
mod items;
pub mod laws;
mod lines;
mod pieces;
mod printing;
pub mod refusal;
mod report;
pub mod run;
mod steps;
pub mod top;

pub use configuration::{ConfError, config};
pub use run::{RunEnd, run_on};
pub use top::psxk;
