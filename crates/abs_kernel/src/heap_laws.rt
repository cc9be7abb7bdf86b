//! The laws of the heap, for all calls since InitHeap: each function's contract is the law, and the function does nothing.
ghost use Rattle.abs_kernel.specs.HeapLaws.{CallsMakeSteps, InitHeapSets, CallsReturn, OthersKeepHeap, SizesSum, FreeIsJoined, UsedLieInside, UsedLieApart, UsedAreKept, FreedIsUnused, GivenIsUsed, ReallocFrees, FreeUndoes, MallocAnswersZero, CallocClears, ReallocCopies};

/// The stays of malloc, free, calloc and realloc are steps of the heap alone, with an answer, and in a valid state none of them stops.
/// InitHeap returns where all bytes of the heap are user memory, with a new heap. No other call changes the heap.
pub fn heap_calls()
    ensures steps { CallsMakeSteps }
    ensures sets { InitHeapSets }
    ensures returns { CallsReturn }
    ensures others { OthersKeepHeap }
{}

/// The heap after any calls: its base stays and its sizes sum to its size, what is free is joined on both sides, and used blocks lie inside it and apart from each other.
pub fn heap_blocks()
    ensures sizes { SizesSum }
    ensures joined { FreeIsJoined }
    ensures inside { UsedLieInside }
    ensures apart { UsedLieApart }
{}

/// What malloc, calloc and realloc give is used from then on, with the size that was asked for, rounded.
/// It keeps its place and size until it is freed, whatever calls come between; realloc frees the old block where it gives a new one. Free of what malloc just gave gives the blocks back.
pub fn given_blocks()
    ensures used { GivenIsUsed }
    ensures kept { UsedAreKept }
    ensures freed { FreedIsUnused }
    ensures replaced { ReallocFrees }
    ensures undone { FreeUndoes }
{}

/// malloc answers 0 for no size and for one that can't be rounded, where no free block is large enough, and where the first that is must be split and the table is full; else it answers a block.
pub fn refused_sizes()
    ensures { MallocAnswersZero }
{}

/// Where calloc gives a block, so many of its bytes as were asked for are 0; where realloc gives one for another, it has that one's bytes, up to the lesser size.
/// Every other byte of memory is as before.
pub fn block_bytes()
    ensures cleared { CallocClears }
    ensures copied { ReallocCopies }
{}
