//! The ports of the board: interrupt registers, three root counters, console, halt ports and start ports.
//! Their answers are functions of the history of accesses, raised lines and given bytes, by which the board's run is defined; the board holds them.
#![tactic(auto)]

mod console;
mod counter;
mod counters;
mod halts;
mod interrupts;
mod laps;
mod laws;
mod ports;
#[cfg(test)]
mod tests;

pub use laws::{line_stays, turn_by_turn};
pub use ports::Ports;
use psx_base::Stop;

/// What a write did beyond its port.
#[derive(Clone, Copy, PartialEq, Eq, Debug)]
pub enum PortDid {
    /// Nothing.
    Quiet,
    /// A byte was written to the terminal.
    Tty(u8),
    /// The run stops.
    Halt(Stop),
}
