//! Laws of the calls' definitions: what they come to in the devices, without a look at any code.
//! Each function's contract is the law, for every state and every history of the devices, and the function does nothing.
ghost use Rattle.kern_timer.specs.Laws.{Begins, Restarts, Gets, Enables, Disables, OtherNumbers};

/// At init_timer's last write the counter has the value 0, the low 16 bits of the target and the mode that the flags ask for, also where it ran before; at restart_timer's write it has the value 0, and its target and mode are kept.
/// Both leave the other counters as they are.
pub fn counters_begin()
    ensures begins { Begins }
    ensures restarts { Restarts }
{}

/// get_timer answers the counter's value at the count at which it is read, and leaves each counter as it is.
pub fn counters_are_read()
    ensures { Gets }
{}

/// enable_timer_irq sets the bit of one line in the interrupt mask, and disable_timer_irq clears it. Each other bit stays.
pub fn lines_are_masked()
    ensures enables { Enables }
    ensures disables { Disables }
{}

/// With another number than that of a counter, or of a line, a call accesses no port and answers 0.
pub fn other_numbers()
    ensures { OtherNumbers }
{}
