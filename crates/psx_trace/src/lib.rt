//! The items of a trace, the lines that tell them, and the reader of such lines.
//! A line is the definition `line` of the plain item, a stop's text the definition `stop_text`,
//! and what is read is the one list of items that `IsTraceOf` the text.
//! The crate of the top call writes the lines of a run with it, and reports a stop.
#![tactic(auto)]

mod candidate;
pub mod item;
pub mod line;
mod parts;
pub mod read;
pub mod stops;
pub mod text;

pub use item::{Entered, Item, Regs};
pub use line::line_of;
pub use read::{Trace, TraceError};
pub use stops::{StopText, stop_text};
pub use text::TraceLine;

#[cfg(test)]
mod tests;
