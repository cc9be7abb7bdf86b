//! Texts of bytes: their parts, and the numbers that they have in decimal and hexadecimal digits.
//! The crates of schedules, traces and assembly language and the top call read and write with it.
//! A reading gives some number where none stands: who reads compares with what would have been written.
#![tactic(auto)]

mod digits;
mod parts;
#[cfg(test)]
mod tests;
mod writing;

pub use digits::{count_of, digit_value, digits_len, hex_digit};
pub use parts::{byte_at, front, skip};
pub use writing::put;
