//! The kernel's 64 KB: where everything stands in it, and by which words it is the kernel's state.
//! The numbers stand in places.rt and ranges.rt, where the definitions read them; the readings and the laws of a store are specs/Reads.antt and specs/StoreLaws.antt.
//! The crates that hold the kernel's code use the places and the laws, and the image is made of a `KernelBlock`.
#![tactic(auto)]

mod block;
pub mod laws;
pub mod opening;
pub mod places;
pub mod ranges;
#[cfg(test)]
mod tests;

pub use block::KernelBlock;
pub use opening::{opening_word, put_opening};
pub use ranges::Range;
