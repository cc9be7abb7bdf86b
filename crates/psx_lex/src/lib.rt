//! The tokens of a line of assembly language: names, directives, numbers, texts and marks, each with its place.
//! It meets the definition of a line's tokens (`IsTokensOf`): all of them in order, or the first byte that begins none.
//! The assembler reads its lines by it.
#![tactic(auto)]

mod bytes;
mod first;
mod line;
mod number;
#[cfg(test)]
mod tests;
mod token;

pub use line::{tokens, tokens_or_fault};
pub use token::{Kind, LexError, Token};
