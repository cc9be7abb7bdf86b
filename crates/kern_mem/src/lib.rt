//! The calls on bytes of user memory, the jumps, and those of random numbers. Each routine's listing stands in a file of its own, with its theorem.
#![tactic(auto)]

pub mod a13_setjmp;
pub mod a14_longjmp;
pub mod a2a_memcpy;
pub mod a2b_memset;
pub mod a2c_memmove;
pub mod a2d_memcmp;
pub mod a2e_memchr;
pub mod a2f_rand;
pub mod a30_srand;
pub mod a44_flush_cache;
pub mod laws;
pub mod move_laws;
pub mod places;
pub mod placing;

pub use placing::place;
