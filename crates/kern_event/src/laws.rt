//! Laws of the calls' definitions: what a program may rest on, without a look at any code.
ghost use Rattle.kern_event.specs.Laws.{ReadyOnce, BadHandleKeeps, OpensGood, StaysGood, TakenBack};

/// TestEvent answers 1 exactly where the event is ready; and 0 in each later state that has the event as that call left it, so until it is made ready anew. It does nothing.
pub fn ready_once()
    ensures { ReadyOnce }
{}

/// A call with a handle that is that of no event answers, and leaves all else as it is. It does nothing.
pub fn bad_handle_keeps()
    ensures { BadHandleKeeps }
{}

/// The handle that OpenEvent answers is that of an open event, and no call on events but a CloseEvent of that handle ends this. It does nothing.
pub fn handle_stays_good()
    ensures opened { OpensGood }
    ensures kept { StaysGood }
{}

/// SysDeqIntRP of the element that SysEnqIntRP has put in a chain gives the chain back as it was before. It does nothing.
pub fn taken_back()
    ensures { TakenBack }
{}
