//! The laws of the written kernel machine: each function's contract is the law, for every state, and the function does nothing.
ghost use Rattle.abs_kernel.specs.CauseLaws.{EntriesKept, EntriesTold};
ghost use Rattle.abs_kernel.specs.StayLaws.{UnservedStops, MemoryKept, RestKept, ReturnsAtRest, ValidKept};
ghost use Rattle.abs_kernel.specs.PlayedLaws.{PlayedKeeps, HaltedKeeps, AnswersInOrder, MoreAnswers, EnoughAnswers};
ghost use Rattle.abs_kernel.specs.AccessLaws.{TestsPass, TestsStop, WordsWithin, WordsStay, TextsEnd};
ghost use Rattle.abs_kernel.specs.ProgramLaws.{InterruptsGivenBack, EnteredAgain};
ghost use Rattle.abs_kernel.specs.WorkLaws.{WorkKeepsValid, BackKeepsValid, DeliveryKeepsValid, DeliversToAll, DeliversToTheLast, DeliversToACall, LastInFirstOut, GoesOnWithLast, TakenUpAsKept, CallbackLeavesNothing, DropsTasks, EightFrames, NamedIsTakenUp, NamedWaits};
ghost use Rattle.abs_kernel.specs.InterruptLaws.{LineIsHandled, OnlyLines, ContextInterrupted, EntryTakesUp, FrameTakesUp, ThreadTakesUp, NamesThread, Preempts};
ghost use Rattle.abs_kernel.specs.UserLaws.{UserStepKeepsValid};
ghost use Rattle.abs_kernel.specs.ThreadLaws.{OneHandle, BadHandleStops, OpensLowest, UsedStay, ChangesBack};
ghost use Rattle.abs_kernel.specs.Numeral.{NumeralIsOne};

/// After an entry the processor has it in Cause, EPC and its registers, and by these it can be told by what the kernel was entered.
///
/// It does nothing, as each function of this file.
pub fn entries()
    ensures kept { EntriesKept }
    ensures told { EntriesTold }
{}

/// A stay of a number that isn't served stops with the table, the number and r31, of a SYSCALL EPC.
pub fn unserved_numbers()
    ensures { UnservedStops }
{}

/// What a stay changes: the running context, and of the rest what its call may change alone. One whose call doesn't write the user's memory leaves it as it is, also where it stops.
/// The program goes on at rest, and a valid state stays valid.
pub fn stays()
    ensures rest { RestKept }
    ensures memory { MemoryKept }
    ensures at_rest { ReturnsAtRest }
    ensures valid { ValidKept }
{}

/// The list form of a stay: it uses the answers in order, its accesses before a read depend on earlier answers alone, and with any answers it keeps what a stay keeps.
pub fn played_stays()
    ensures returned { PlayedKeeps }
    ensures halted { HaltedKeeps }
    ensures in_order { AnswersInOrder }
    ensures more { MoreAnswers }
    ensures enough { EnoughAnswers }
{}

/// SYSCALL 1 turns interrupts off and answers whether they were on, and a later SYSCALL 2 gives that back.
pub fn critical_sections()
    ensures { InterruptsGivenBack }
{}

/// A call that waits returns to its own gate, with the same call to be made again.
pub fn waiting_calls()
    ensures { EnteredAgain }
{}

/// A step of user code that goes on keeps a valid state valid.
pub fn user_steps()
    ensures { UserStepKeepsValid }
{}

/// What the words for user memory reach: a test of a range touches each byte up to and with the first bad one, a word of user memory has its four bytes there and
/// is read as it was written, and the count in the definitions of texts is no limit.
pub fn user_accesses()
    ensures pass { TestsPass }
    ensures stop { TestsStop }
    ensures within { WordsWithin }
    ensures again { WordsStay }
    ensures texts { TextsEnd }
{}

/// The calls on threads. Each thread has one handle, and one out of range stops CloseThread and ChangeThread with itself and r31, the user's memory as it is; so does a free slot's ChangeThread.
/// OpenThread takes the lowest free slot that isn't the running thread's and answers its handle, and FFFFFFFFh where there is none; the running slot and those that are used stay.
/// A thread that changes to another and isn't closed goes on, whatever runs between in other threads, as if the call had answered 1.
/// Its registers, HI, LO and interrupts are its own, but for r2, k0 and k1.
pub fn threads()
    ensures handle { OneHandle }
    ensures bad { BadHandleStops }
    ensures opens { OpensLowest }
    ensures used { UsedStay }
    ensures back { ChangesBack }
{}

/// The numeral of a word in a base: its digits are below the base, the sum of them times the powers of their places is the word, and no fewer digits stand for it.
pub fn numerals()
    ensures { NumeralIsOne }
{}

/// Tasks keep a valid state valid and end at rest: of any stay, of the return of a callback, and of a delivery.
pub fn tasks()
    ensures works { WorkKeepsValid }
    ensures back { BackKeepsValid }
    ensures delivers { DeliveryKeepsValid }
{}

/// A delivery makes ready exactly the busy events of mode 2000h with its class and spec, in one stay where none has a function to be called.
/// Where some has, a scan from any number on makes them ready up to the first such event, whose function is called with the scan from behind it as what is left; and where none is left, up to the last event.
pub fn deliveries()
    ensures all { DeliversToAll }
    ensures last { DeliversToTheLast }
    ensures call { DeliversToACall }
{}

/// Frames are last in, first out, whatever the callbacks between have done, and there are at most eight; with eight a call of a function stops as Deep.
/// The return of a function goes on with the last frame's tasks, and ReturnFromException drops them. The context that a frame keeps is taken up as it was.
pub fn callbacks()
    ensures frames { LastInFirstOut }
    ensures goes_on { GoesOnWithLast }
    ensures drops { DropsTasks }
    ensures eight { EightFrames }
    ensures context { TakenUpAsKept }
    ensures nothing { CallbackLeavesNothing }
{}

/// A thread that a callback has named is taken up when the last frame goes, with all its registers, HI, LO and interrupts, and the slot of the one that ran keeps the frame's context. While a frame is left, its context is taken up.
pub fn named_threads()
    ensures taken_up { NamedIsTakenUp }
    ensures waits { NamedWaits }
{}

/// The lines of an interrupt: each of VBLANK and the counters that is pending and enabled is taken back in I_STAT, VBLANK first and then the counters, and makes ready exactly the busy events of mode 2000h with its class and spec 2, where none has a function to be called.
pub fn interrupt_lines()
    ensures handled { LineIsHandled }
    ensures lines { OnlyLines }
{}

/// The context that an interrupt meets has the program's registers, HI, LO and interrupts, with a pending load written; pc and k0 are the interrupted instruction, in a delay slot its branch, and k1 is 0.
/// It is taken up so by the entry itself; or where a function is called, when the frame that keeps it has gone; or where a callback has named another thread, when its own thread next runs.
pub fn interrupted_contexts()
    ensures context { ContextInterrupted }
    ensures entry { EntryTakesUp }
    ensures frame { FrameTakesUp }
    ensures thread { ThreadTakesUp }
{}

/// A callback that calls ChangeThread names a thread, which runs when the last frame has returned with no task left. The thread that ran has all its registers, HI, LO and interrupts when it is next taken up.
pub fn preemption()
    ensures names { NamesThread }
    ensures preempts { Preempts }
{}
