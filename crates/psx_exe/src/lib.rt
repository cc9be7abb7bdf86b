//! PS-EXE programs: the file format, read and written exactly (PSX-SPX, EXE header).
//! It meets the definitions of accepted inputs for programs, and holds the definition of where a program is placed in memory.
//! The board starts from its programs, and the top call reports its errors.
#![tactic(auto)]

mod exe;
mod fault;
mod header;
#[cfg(test)]
mod tests;
mod text;

pub use exe::Exe;
pub use fault::ExeError;
pub use text::Text;
