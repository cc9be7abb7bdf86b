//! The calls on threads. Each routine's listing stands in a file of its own, with its theorem.
#![tactic(auto)]

pub mod b0e_open_thread;
pub mod b0f_close_thread;
pub mod b10_change_thread;
pub mod b17_return_from_exception;
pub mod places;
pub mod placing;

pub use placing::place;
