//! Tests of the processor, the board, the listings, the assembler, the printer and the workload, by what their crates show to others.
//! They stand here, since a crate with tests of its own is proved a second time with them, and these are the dear ones.
#![tactic(auto)]

#[cfg(test)]
mod asm;
#[cfg(test)]
mod board;
#[cfg(test)]
mod cpu;
#[cfg(test)]
mod dis;
#[cfg(test)]
mod flow;
#[cfg(test)]
mod workload;
