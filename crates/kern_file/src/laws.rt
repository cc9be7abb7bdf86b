//! The laws of the calls on files and the console: each function's contract is the law, for every state, and the function does nothing.
ghost use Rattle.kern_file.specs.CallLaws.{ClosedRefuses, ErrorAnswered, LowestOpened, NoneThere, PutsSends, WriteSends};

/// What write and puts send is the text, byte for byte, and then they answer.
///
/// It does nothing, as each function of this file.
pub fn sent()
    ensures write { WriteSends }
    ensures puts { PutsSends }
{}

/// open answers the lowest free number, and opens that file.
pub fn opened()
    ensures { LowestOpened }
{}

/// A number of a closed file refuses with the error BAD_FILE in close, read, write, getc and putc, and that is what GetLastError answers.
pub fn refused()
    ensures closed { ClosedRefuses }
    ensures none { NoneThere }
    ensures answered { ErrorAnswered }
{}
