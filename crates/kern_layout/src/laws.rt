//! The laws of the kernel's state in memory, as the kernel's code may use them: each function's contract is the law, for every state, and the function does nothing.
ghost use Rattle.kern_layout.specs.StateLaws.{EachIsRead, EachStands, ReadsOne, StandsOne, StartsValid, StartsInWords};
ghost use Rattle.kern_layout.specs.OwnRange.{ThreadsOwn, EventsOwn, FramesOwn, ChainsOwn, HeapOwn, FilesOwn, LineOwn, VariablesOwn, FreeWords};
ghost use Rattle.kern_layout.specs.MemoryLaws.{WordStored, LineKept, ByteStored};
ghost use Rattle.kern_layout.specs.StoreLaws.{ThreadWritten, ThreadStored, ThreadFreed, ThreadSwitched, EventWritten, EventStored, EventStatusStored, FileStored, VariableStored, FrameWritten, FrameContextStored, FrameTaskStored, FramePushed, FramesDropped, TaskStored, TaskDone, ElementTaken, LineTaken, ChainWritten, ChainLinked, ChainUnlinked, LineStored, LineAppended, LineEmptied, HeapWritten, BlockStored, BlockUnlinked, BlockLinked, ContextCopied, TasksCopied, FrameCopied, StackMore, StackJoined};

/// Each valid state is read from some memory, words read as one state only but for what they don't show, and the state at a program's begin is valid.
///
/// Its clauses hold of every state. It does nothing, as each function of this file.
pub fn states()
    ensures each_is_read { EachIsRead }
    ensures each_stands { EachStands }
    ensures reads_one { ReadsOne }
    ensures stands_one { StandsOne }
    ensures starts_valid { StartsValid }
    ensures starts_in_words { StartsInWords }
{}

/// Each table is read from its own range alone.
pub fn own_ranges()
    ensures threads { ThreadsOwn }
    ensures events { EventsOwn }
    ensures frames { FramesOwn }
    ensures chains { ChainsOwn }
    ensures heap { HeapOwn }
    ensures files { FilesOwn }
    ensures line { LineOwn }
    ensures variables { VariablesOwn }
    ensures free_words { FreeWords }
{}

/// A store to a thread's control block is the state with that thread changed; with the running thread's number it is the state with another thread running.
pub fn thread_stores()
    ensures written { ThreadWritten }
    ensures stored { ThreadStored }
    ensures freed { ThreadFreed }
    ensures switched { ThreadSwitched }
{}

/// A store to an event's control block is the state with that event changed.
pub fn event_stores()
    ensures written { EventWritten }
    ensures stored { EventStored }
    ensures status { EventStatusStored }
{}

/// A store to a file's word is the state with that file closed or open.
pub fn file_stores()
    ensures { FileStored }
{}

/// A store to a variable is the state with that variable changed.
pub fn variable_stores()
    ensures { VariableStored }
{}

/// A store to a frame is the state with that frame changed; frames are pushed and dropped by their count.
pub fn frame_stores()
    ensures written { FrameWritten }
    ensures context_stored { FrameContextStored }
    ensures task_stored { FrameTaskStored }
    ensures pushed { FramePushed }
    ensures dropped { FramesDropped }
{}

/// A store among the tasks of a frame or of the work area is the list of tasks with that task changed, or without its first one.
pub fn task_stores()
    ensures stored { TaskStored }
    ensures done { TaskDone }
    ensures element_taken { ElementTaken }
    ensures line_taken { LineTaken }
{}

/// A store to a chain is the state with that chain changed, with another head, or without its head.
pub fn chain_stores()
    ensures written { ChainWritten }
    ensures linked { ChainLinked }
    ensures unlinked { ChainUnlinked }
{}

/// A store to the line of gets is the state with that byte changed, with one byte more, or with no line.
pub fn line_stores()
    ensures stored { LineStored }
    ensures appended { LineAppended }
    ensures emptied { LineEmptied }
{}

/// A store to an entry of the heap's table is the state with that block changed; unlinking and linking an entry is the list without and with it.
pub fn heap_stores()
    ensures written { HeapWritten }
    ensures stored { BlockStored }
    ensures unlinked { BlockUnlinked }
    ensures linked { BlockLinked }
{}

/// A list of words has one number more by one store, and two lists that stand one behind the other are one.
pub fn stacks()
    ensures more { StackMore }
    ensures joined { StackJoined }
{}

/// A context, tasks or a frame copied word by word to another place are there too.
pub fn copies()
    ensures context { ContextCopied }
    ensures tasks { TasksCopied }
    ensures frame { FrameCopied }
{}

/// A store to memory is the store to its words at multiples of 4, and to the bytes of the line.
pub fn memory_stores()
    ensures word { WordStored }
    ensures line { LineKept }
    ensures byte { ByteStored }
{}
