//! The programs of examples/ as tests, each by the top call over a host in memory. examples/as_tests.sh writes them, but for this list.
//! There is nothing else here.
#![tactic(auto)]

#[cfg(test)]
mod callback;
#[cfg(test)]
mod clock;
#[cfg(test)]
mod critical;
#[cfg(test)]
mod echo;
#[cfg(test)]
mod events;
#[cfg(test)]
mod heap;
#[cfg(test)]
mod hello;
#[cfg(test)]
mod hosts;
#[cfg(test)]
mod load_delay;
#[cfg(test)]
mod memchr;
#[cfg(test)]
mod memory;
#[cfg(test)]
mod numbers;
#[cfg(test)]
mod preempt;
#[cfg(test)]
mod printf;
#[cfg(test)]
mod registers;
#[cfg(test)]
mod ring;
#[cfg(test)]
mod stop_bad_pointer;
#[cfg(test)]
mod stop_bad_return;
#[cfg(test)]
mod stop_bad_thread;
#[cfg(test)]
mod stop_budget;
#[cfg(test)]
mod stop_deep;
#[cfg(test)]
mod stop_exception;
#[cfg(test)]
mod stop_exception_slot;
#[cfg(test)]
mod stop_exit;
#[cfg(test)]
mod stop_protected;
#[cfg(test)]
mod stop_return;
#[cfg(test)]
mod stop_slot_branch;
#[cfg(test)]
mod stop_unserved;
#[cfg(test)]
mod stop_unserved_syscall;
#[cfg(test)]
mod stop_user_data;
#[cfg(test)]
mod stop_user_fetch;
#[cfg(test)]
mod table;
#[cfg(test)]
mod text;
#[cfg(test)]
mod timer;
#[cfg(test)]
mod toupper;
#[cfg(test)]
mod unaligned;
