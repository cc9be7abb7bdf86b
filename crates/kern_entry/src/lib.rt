//! The entry into the kernel and the way back: the exception vector, the gates, what saves a context and takes it up, the choice of the routine, and exit.
//! All of it is listings at the addresses of places.rt, but for the two words that leave the kernel.
#![tactic(auto)]

pub mod area;
pub mod back;
pub mod calls;
pub mod chains;
pub mod deliver;
pub mod elements;
pub mod frames;
pub mod interrupts;
pub mod law;
pub mod leave;
pub mod places;
mod placing;
pub mod push;
pub mod save;
pub mod scan;
pub mod stepwise;
pub mod stops;
pub mod sys;
pub mod take_up;
pub mod tasks;
pub mod work;

pub use placing::{apart, place_code, place_vector};
