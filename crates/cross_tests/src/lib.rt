//! Tests that cross crates, each by the top call over hosts in memory: whole runs, the other commands, words and files that are refused, and the kernel's words, printed and assembled again.
//! There is nothing else here.
#![tactic(auto)]

#[cfg(test)]
mod gen_runs;
#[cfg(test)]
mod hosts;
#[cfg(test)]
mod kept_registers;
#[cfg(test)]
mod one_text_commands;
#[cfg(test)]
mod refused_words_and_files;
#[cfg(test)]
mod rom;
#[cfg(test)]
mod run_inputs;
#[cfg(test)]
mod whole_runs;
#[cfg(test)]
mod words_and_sizes;
