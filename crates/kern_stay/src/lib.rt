//! What the kernel's routines stand on: how a routine's theorem is said (specs/Doors.antt), where its words end, the listings that it may call, and how its words are placed.
#![tactic(auto)]

pub mod copy;
pub mod copy_half;
pub mod places;
pub mod placing;
pub mod room;
