//! What is proved of listings step by step.
ghost use Rattle.kern_entry.specs.WalkLaws.{WordsWalk};

/// Words that run a listing come to an end of one of its runs, whatever the bus brings at each step.
pub fn words_walk()
    ensures { WordsWalk }
{}
