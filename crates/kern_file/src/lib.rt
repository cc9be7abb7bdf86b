//! The calls on files and the console. Each routine's listing stands in a file of its own, with its theorem.
#![tactic(auto)]

pub mod a00_open;
pub mod a02_read;
pub mod a03_write;
pub mod a04_close;
pub mod a08_getc;
pub mod a09_putc;
pub mod a3b_getchar;
pub mod a3c_putchar;
pub mod a3d_gets;
pub mod a3e_puts;
pub mod b54_get_last_error;
pub mod errors;
pub mod laws;
pub mod line_laws;
pub mod places;
pub mod placing;

pub use placing::place;
