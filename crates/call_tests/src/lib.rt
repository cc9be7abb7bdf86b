//! Tests of the calls: programs that make them on the image, each by the top call over a host in memory: a plain case, the pointer 0, the last byte of user memory and the one behind it.
//! There is nothing else here.
#![tactic(auto)]

#[cfg(test)]
mod calls;
#[cfg(test)]
mod chain_calls;
#[cfg(test)]
mod compare_calls;
#[cfg(test)]
mod console_edges;
#[cfg(test)]
mod copy_calls;
#[cfg(test)]
mod counter_events;
#[cfg(test)]
mod delivered;
#[cfg(test)]
mod delivery_calls;
#[cfg(test)]
mod element_calls;
#[cfg(test)]
mod event_calls;
#[cfg(test)]
mod file_calls;
#[cfg(test)]
mod frame_calls;
#[cfg(test)]
mod function_calls;
#[cfg(test)]
mod handler_calls;
#[cfg(test)]
mod heap_calls;
#[cfg(test)]
mod heap_walk;
#[cfg(test)]
mod hosts;
#[cfg(test)]
mod interrupt_calls;
#[cfg(test)]
mod jump_calls;
#[cfg(test)]
mod memory_calls;
#[cfg(test)]
mod memory_edges;
#[cfg(test)]
mod number_calls;
#[cfg(test)]
mod printf_calls;
#[cfg(test)]
mod return_calls;
#[cfg(test)]
mod said;
#[cfg(test)]
mod set_calls;
#[cfg(test)]
mod set_edges;
#[cfg(test)]
mod thread_calls;
#[cfg(test)]
mod thread_sizes;
#[cfg(test)]
mod timed;
#[cfg(test)]
mod timer_calls;
#[cfg(test)]
mod waiting_calls;
