//! Stays and tasks evaluated on small states, one for each cause of an entry. Each function does nothing.
ghost use Rattle.abs_kernel.specs.Equations.{PutsByA, PutsInOneAccess, PutsByLoadedNumber, ExitsByA, StopsByA, ExitsByB, StopsByC, EndsByDone, StopsByBack, NothingBySyscall, OffBySyscall, OnBySyscall, StopsBySyscall, StopsBySlot, StopsByTrap};
ghost use Rattle.abs_kernel.specs.CounterEquations.{BeginsSystem, BeginsDots, BeginsLines, NoCounter, Gets, Restarts, Enables, EnablesBlank, Disables, NoLine};
ghost use Rattle.abs_kernel.specs.InterruptEquations.{NoLine as NoLineIsRaised, AtBranch, AtGate, FourLines, CallsFunction as CallsLineFunction, TasksInOrder, CallsElement as CallsChainElement};
ghost use Rattle.abs_kernel.specs.HeapEquations.{FirstFit, NewBlocks, Joined, JoinedBoth, Rounded, Reallocated, Bases, Sizes, NoSize};
ghost use Rattle.abs_kernel.specs.WorkEquations.{MakesReady, PassesOver, CallsFunction, ComesBack, DropsTasks, FunctionZero, NinthFrame, NoFrame, StackWraps, PassesElements, CallsElement, HandlesLines, TakesUpNamed};

/// Entries through the gates of calls, A0h, B0h and C0h.
#[tactic(auto, unfolding(crate::specs::KernelStep::stay_of))]
pub fn calls()
    ensures puts { PutsByA }
    ensures one_access { PutsInOneAccess }
    ensures loaded { PutsByLoadedNumber }
    ensures exits_by_a { ExitsByA }
    ensures stops_by_a { StopsByA }
    ensures exits_by_b { ExitsByB }
    ensures stops_by_c { StopsByC }
{}

/// Entries through the gates of returns, D0h and E0h.
#[tactic(auto, unfolding(crate::specs::KernelStep::stay_of))]
pub fn returns()
    ensures done { EndsByDone }
    ensures back { StopsByBack }
{}

/// SYSCALLs outside the gates.
#[tactic(auto, unfolding(crate::specs::KernelStep::stay_of))]
pub fn syscalls()
    ensures nothing { NothingBySyscall }
    ensures off { OffBySyscall }
    ensures on { OnBySyscall }
    ensures stops { StopsBySyscall }
{}

/// Other exceptions.
#[tactic(auto, unfolding(crate::specs::KernelStep::stay_of))]
pub fn exceptions()
    ensures slot { StopsBySlot }
    ensures trap { StopsByTrap }
{}

/// Interrupts: without a line, in a delay slot, at a gate, with lines, with functions and with elements of chains.
#[tactic(auto, unfolding(crate::specs::KernelStep::stay_of))]
pub fn interrupts()
    ensures no_line { NoLineIsRaised }
    ensures branch { AtBranch }
    ensures gate { AtGate }
    ensures lines { FourLines }
    ensures function { CallsLineFunction }
    ensures order { TasksInOrder }
    ensures element { CallsChainElement }
{}

/// Calls of the heap, one after the other from InitHeap on.
pub fn heaps()
    ensures first_fit { FirstFit }
    ensures new_blocks { NewBlocks }
    ensures joined { Joined }
    ensures joined_both { JoinedBoth }
    ensures rounded { Rounded }
    ensures reallocated { Reallocated }
    ensures bases { Bases }
    ensures sizes { Sizes }
    ensures no_size { NoSize }
{}

/// Deliveries, with and without functions.
pub fn deliveries()
    ensures ready { MakesReady }
    ensures passes { PassesOver }
    ensures calls { CallsFunction }
    ensures zero { FunctionZero }
    ensures ninth { NinthFrame }
    ensures stack { StackWraps }
{}

/// Returns of functions.
pub fn callback_returns()
    ensures back { ComesBack }
    ensures drops { DropsTasks }
    ensures bad { NoFrame }
{}

/// Elements of chains, lines, and a thread that is taken up.
pub fn tasks()
    ensures elements { PassesElements }
    ensures called { CallsElement }
    ensures lines { HandlesLines }
    ensures named { TakesUpNamed }
{}

/// The calls on root counters: which ports they read and write, in their order, and with what.
#[tactic(auto, unfolding(crate::specs::KernelStep::stay_of))]
pub fn counters()
    ensures begins_system { BeginsSystem }
    ensures begins_dots { BeginsDots }
    ensures begins_lines { BeginsLines }
    ensures none { NoCounter }
    ensures gets { Gets }
    ensures restarts { Restarts }
    ensures enables { Enables }
    ensures enables_blank { EnablesBlank }
    ensures disables { Disables }
    ensures no_line { NoLine }
{}
