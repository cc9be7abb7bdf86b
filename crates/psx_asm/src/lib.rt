//! The assembler: a text of assembly language gives bytes at addresses, or its first fault.
//! It meets the definition of assembly, by lines and sizes (`specs/Assembly.antt`: `IsAssemblyOf`).
//! The top call's command `asm` makes a program of its objects, and the printer's law speaks of its definition.
#![tactic(auto)]

mod assembly;
mod directive;
mod encode;
mod fault;
mod instruction;
mod line;
mod number;
mod object;
mod operand;
mod piece;
mod place;
mod shape;
mod shapes;
mod statement;
mod symbol;
mod symbols;
mod table;

pub use assembly::{assemble, object_or_fault};
pub use fault::{AsmError, AsmFault};
pub use object::{Bytes, Name, Object, Part, Parts};
