//! The image: the bytes of the ROM, with the boot code at 0 and the kernel's 64 KB at 10000h.
//! It meets `rom` of specs/Rom.antt, word by word. The board is started with it, and tools write it to a file.
#![tactic(auto)]

pub mod boot;
pub mod boots;
pub mod image;
pub mod laws;
pub mod places;
pub mod serving;
pub mod stays;
mod tables;

pub use image::{Image, build};
