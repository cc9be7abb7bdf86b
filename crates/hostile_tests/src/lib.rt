//! Tests of hostile use, each by the top call over a host in memory: hosts that fail, a file that is cut, and programs of random words, calls, handles and callbacks.
//! There is nothing else here.
#![tactic(auto)]

#[cfg(test)]
mod cut_files;
#[cfg(test)]
mod failing_hosts;
#[cfg(test)]
mod hostile_programs;
#[cfg(test)]
mod hosts;
#[cfg(test)]
mod numbers;
#[cfg(test)]
mod pieces;
#[cfg(test)]
mod programs;
#[cfg(test)]
mod threads;
