//! A law of the command line's definitions. The function's contract is the law, and it does nothing.
ghost use Rattle.psxk_run.specs.Numbers.{BudgetsAreNumerals, RoundsAreNumerals};

/// The words that are read as BUDGET are the decimal numerals of 1 to 4,000,000,000, without sign and without a zero in front, and those that are read as N are those of 1 to 1,000. Each is read as its number.
pub fn numbers()
    ensures budgets { BudgetsAreNumerals }
    ensures rounds { RoundsAreNumerals }
{}
