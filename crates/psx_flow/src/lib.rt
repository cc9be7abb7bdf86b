//! Listings: machine code that is written as a flat list of instructions, choices, loops, calls and jumps, and lowered to words.
//! A listing is well where it spells a tree (`specs/Tree.antt`, `Well.antt`), and its words are those of `specs/Lowered.antt`.
//! The routines of the kernel are listings, and the image holds their words.
#![tactic(auto)]

mod assembly;
mod emit;
mod fit;
pub mod kinds;
pub mod law;
pub mod listings;
mod load;
mod lowering;
mod nesting;
pub mod node;
mod reading;
mod sizing;
mod spacing;

pub use kinds::Tested;
pub use lowering::lower;
pub use nesting::well;
pub use node::{Node, Test};
pub use reading::reading_law;
pub use sizing::size_of;
pub use spacing::spaced;
