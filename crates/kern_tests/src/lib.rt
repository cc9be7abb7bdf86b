//! Tests of the kernel's crates, by what they show to others: words of the image encoded by hand, sizes of listings, names and arguments of the calls, and each law called once.
//! They stand here, since a crate with tests of its own is proved a second time with them.
#![tactic(auto)]

#[cfg(test)]
mod entry;
#[cfg(test)]
mod event;
#[cfg(test)]
mod file;
#[cfg(test)]
mod heap;
#[cfg(test)]
mod image;
#[cfg(test)]
mod kernel;
#[cfg(test)]
mod mem;
#[cfg(test)]
mod printf;
#[cfg(test)]
mod run;
#[cfg(test)]
mod stay;
#[cfg(test)]
mod text;
#[cfg(test)]
mod thread;
#[cfg(test)]
mod timer;
