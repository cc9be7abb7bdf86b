//! What the calls on numbers answer for numerals. Each function's contract is the law, and it does nothing.
ghost use Rattle.kern_text.specs.NumberLaws.{AtoiReadsDecimals, StrtolReadsNumerals, StrtolReadsPrefixed};

/// Where the numeral of a word stands, in a base of 2 to 36, strtol in that base with the end 0 answers the word. The letters may be small ones or capitals. Behind a minus sign it answers 2^32 less the word.
pub fn strtol_reads_numerals()
    ensures { StrtolReadsNumerals }
{}

/// Where the hexadecimal numeral of a word stands behind 0x or 0X, strtol in base 16 or 0 with the end 0 answers the word, and behind a minus sign 2^32 less the word.
pub fn strtol_reads_prefixed()
    ensures { StrtolReadsPrefixed }
{}

/// Where the decimal numeral of a word stands, atoi answers the word, and behind a minus sign 2^32 less the word.
pub fn atoi_reads_decimals()
    ensures { AtoiReadsDecimals }
{}
