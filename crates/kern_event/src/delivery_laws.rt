//! Laws of whole runs: of frames, and of deliveries with all the functions that they call. Each function does nothing.
ghost use Rattle.kern_event.specs.FrameLaws.{MoveKeepsFrames, FramesStay, FramesAreKept};
ghost use Rattle.kern_event.specs.DeliveryLaws.{ScanReaches, LineReaches, DeliverEventReachesAll, SyscallReachesAll, EachOnce};
ghost use Rattle.kern_event.specs.DeliveryEquations.{DeliversInTwoStays};

/// A delivery comes to each event once, in the order of their numbers, however many stays it takes and whatever the functions do that it calls.
/// In each stay it goes on from behind the event whose function it called last, over the events as they are then. Exactly those busy events of mode 2000h with its class and spec become ready,
/// and of mode 1000h the functions are called, where they aren't 0.
///
/// Of a function it is asked that it returns at gate E0h: where one doesn't, the laws say what the delivery has done up to its call.
pub fn deliveries_reach_all()
    ensures scan { ScanReaches }
    ensures line { LineReaches }
    ensures call { DeliverEventReachesAll }
    ensures syscall { SyscallReachesAll }
    ensures once { EachOnce }
    ensures example { DeliversInTwoStays }
{}

/// Each stay takes at most the innermost frame away, and puts at most one there.
/// A frame keeps its context and its tasks, whatever is done above it, and the return that takes it away goes on with exactly these.
pub fn frames_are_kept()
    ensures moves { MoveKeepsFrames }
    ensures stay { FramesStay }
    ensures taken { FramesAreKept }
{}
