//! What is proved of the entry's words.
ghost use Rattle.abs_kernel.specs.Exits.{exits};
ghost use Rattle.kern_entry.specs.declared.places.TheConstants.{EXIT};
ghost use Rattle.kern_entry.specs.WorkLaws.{WorkServes, PushServes, TakeUpServes, BackServes, DeliverServes, InterruptServes, BegunWorkServes};
ghost use Rattle.kern_entry.specs.InterruptLaws.{InterruptsArrive};
ghost use Rattle.kern_entry.specs.EntryLaws.{StaysBegin, LeaveReturns, WaitReturns, BadPointerStops, BadThreadStops, BadReturnStops, DeepStops, OwnCalls};

/// From the exception vector the entry's words, where they stand in memory, begin the stay of each entry from the user side, step by step and whatever the bus brings, in at most 202 steps:
/// they make it, or they come to the routine that the table has for the call, or to that of a callback's return, of a SYSCALL that delivers or of an interrupt, with the context saved. It does nothing.
pub fn stays_begin()
    ensures { StaysBegin }
{}

/// From each place where a routine's words may arrive the words return to the context that the work area holds, or stop, in at most 72 steps. It does nothing.
pub fn routines_return()
    ensures leave { LeaveReturns }
    ensures wait { WaitReturns }
    ensures bad_pointer { BadPointerStops }
    ensures bad_thread { BadThreadStops }
    ensures bad_return { BadReturnStops }
    ensures deep { DeepStops }
{}

/// The entry's own routine makes its calls' stays. It does nothing.
pub fn own_calls()
    ensures { OwnCalls EXIT exits }
{}

/// The listings of frames, where the entry's words stand, make what is left at their doors: a function is called, a context is taken up, and a function's return goes on with the tasks of its frame. It does nothing.
pub fn frames_serve()
    ensures push { PushServes }
    ensures take_up { TakeUpServes }
    ensures back { BackServes }
{}

/// The listings of tasks, where the entry's words stand, do those of the work area, up to a function's call or to where none is left; and a SYSCALL that delivers comes to them with a scan as its task. It does nothing.
pub fn tasks_serve()
    ensures work { WorkServes }
    ensures deliver { DeliverServes }
{}

/// From the vector, where the entry's words stand, an interrupt comes to its listing in at most 202 steps, whatever the bus brings. The listing comes to WORK with the elements and the lines that are due, in at most 384 steps.
/// WORK does these in at most 6,464 steps, whatever is touched and however many ports are accessed. It does nothing.
pub fn interrupts_serve()
    ensures arrive { InterruptsArrive }
    ensures listing { InterruptServes }
    ensures tasks { BegunWorkServes }
{}
