//! What strtok gives over its calls.
ghost use Rattle.kern_text.specs.TokenLaws.{TokensAreRuns};

/// The calls strtok(s, set), strtok(0, set), and so on, where set shares no byte with s, answer the maximal runs of bytes of s that aren't in set, in order, each a text of its own then; and last 0.
/// It does nothing: its contract is the law.
pub fn tokens()
    ensures { TokensAreRuns }
{}
