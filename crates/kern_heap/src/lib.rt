//! The calls of the heap, over the linked table of its blocks. Each routine's listing stands in a file of its own, with its theorem; those that the routines share are `find`, `join`, `allot` and `release`.
#![tactic(auto)]

pub mod a33_malloc;
pub mod a34_free;
pub mod a37_calloc;
pub mod a38_realloc;
pub mod a39_init_heap;
pub mod allot;
pub mod find;
pub mod join;
pub mod places;
pub mod placing;
pub mod release;

pub use placing::place;
