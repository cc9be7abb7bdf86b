//! The laws of the calls that wait, and of the lines of gets: each function's contract is the law, whatever the ports answer, and the function does nothing.
ghost use Rattle.kern_file.specs.LineLaws.{TriesAreTheSameCall, LinesAreGathered, NoneIsLost};

/// A call that waits where it isn't ready goes back to its gate: pc is the gate's address, all registers but k0 and k1 are as they were, and the coming entry is the same call.
pub fn tries()
    ensures { TriesAreTheSameCall }
{}

/// The line of gets. A call that waits keeps the bytes that it took in the line, and one that is done writes a line without its end and a zero, and empties the buffer.
/// So of many calls with tries among them the lines that they give with their ends, and what is left in the line, are all bytes that they took: in order, none twice and none lost.
///
/// It does nothing.
pub fn lines()
    ensures gathered { LinesAreGathered }
    ensures none_lost { NoneIsLost }
{}
