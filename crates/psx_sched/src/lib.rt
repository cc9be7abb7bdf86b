//! Schedules: what reaches the board from outside, each entry at its count, and the texts that tell of them.
//! It meets the definition of accepted schedules: the entries whose lines a text is, or the text's first fault (`IsScheduleOf`).
//! The board delivers a schedule's entries, and the top call reports its errors.
#![tactic(auto)]

mod fault;
mod line;
mod parts;
mod schedule;
#[cfg(test)]
mod tests;
mod text;

pub use fault::SchedError;
pub use schedule::{Entry, Schedule, What};
pub use text::schedule_or_fault;
