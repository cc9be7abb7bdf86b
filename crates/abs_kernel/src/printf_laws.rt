//! The laws of printf: each function's contract is the law, and the function does nothing.
ghost use Rattle.abs_kernel.specs.ConversionsShown.{KindsShown, NumbersShown, FlagsShown, OthersShown, ManyDigits};
ghost use Rattle.abs_kernel.specs.PrintfLaws.{AnswerCounts, PlainWritten, NumbersWritten};

/// Where printf returns, its answer is how many bytes it has written, whatever the format, modulo 2^32.
pub fn answers()
    ensures { AnswerCounts }
{}

/// printf of a format without `%` writes the format as it is, and answers its length.
pub fn plain_formats()
    ensures { PlainWritten }
{}

/// printf of `%d`, `%i`, `%u`, `%o`, `%x` and `%X` alone writes the sign and the numeral of r5, with one 0 for 0, and answers how many bytes these are.
pub fn number_formats()
    ensures { NumbersWritten }
{}

/// Conversions evaluated: what a number is shown as.
pub fn conversions()
    ensures kinds_shown { KindsShown }
    ensures numbers_shown { NumbersShown }
    ensures flags_shown { FlagsShown }
    ensures others_shown { OthersShown }
    ensures many_digits { ManyDigits }
{}
