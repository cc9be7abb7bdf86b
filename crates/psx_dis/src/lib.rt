//! Words of machine code printed as assembly language.
//! `print` gives the text of the definition `printed` (`specs/Printed.antt`), and `mnemonic` the one of an instruction.
//! The top call's command `dis` sends such a text. `assembles_back` is its law: assembled in a window that has its words, it gives them back,
//! where it is no longer than a text of the assembler may be.
#![tactic(auto)]

mod law;
mod mnemonics;
mod operands;
mod printer;
mod target;
mod text;

pub use law::assembles_back;
pub use mnemonics::mnemonic;
pub use printer::print;
