//! The laws of runs: each function's contract is the law, and the function does nothing.
ghost use Rattle.abs_run.specs.InWords.{StepsKeepWords};
ghost use Rattle.abs_run.specs.RunLaws.{BoardRuns, BoardReturnsInTime, BoardBoots, EveryRun, EveryInterrupt, ItemsDetermine, ListsAreServed};

use crate::coverage::Coverage;

/// Where a ROM serves what is covered, each run of the board whose entries are covered is a kernel run of its program, for any schedule, sizes and budget:
/// of its items, its console bytes, and the user's memory at its end. A budget that ends inside a stay is among them.
///
/// That the entries are covered is shown by the invariant, and by what the run's trace shows of them. Each interrupt returns, or comes to the first function that it calls, in at most 8,192 steps behind the one that takes it.
/// It does nothing, as each function of this file.
pub fn board_runs<C: Coverage>()
    ensures runs { BoardRuns C.covers C.keeps C.shows }
    ensures in_time { BoardReturnsInTime C.covers C.keeps C.shows }
{}

/// Where a ROM serves every entry, each run of the board is a kernel run, and its interrupts return in time.
pub fn every_run()
    ensures runs { EveryRun }
    ensures in_time { EveryInterrupt }
{}

/// The boot of a ROM that serves ends after the same number of steps for every program, schedule and sizes, or before it by the budget. Till then the trace has nothing.
pub fn board_boots<C: Coverage>()
    ensures { BoardBoots C.covers }
{}

/// The items of a kernel run determine its console bytes and the user's memory at its end, but where the budget ends it in a stay.
pub fn items_determine()
    ensures { ItemsDetermine }
{}

/// Words that make a stay step by step make it with each list of port answers, whatever the interrupt line shows, within the bound and 128 steps for each unit that it touches.
pub fn lists_are_served()
    ensures { ListsAreServed }
{}

/// Each step of the processor leaves words in its registers and bytes in memory, where it finds them and its port answers a word. So a ROM need serve such a processor alone.
pub fn words_are_kept()
    ensures { StepsKeepWords }
{}
