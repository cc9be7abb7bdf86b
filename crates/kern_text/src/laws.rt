//! Laws of the text calls: what their definitions come to on texts, in words that name no loop. Each function's contract is the law, and it does nothing.
ghost use Rattle.kern_text.specs.Texts.{LengthIsNoLimit, StrcmpTells, StrlenCounts};

/// Where a text stands, strlen answers the number of its bytes before the first zero, whatever stands behind it.
pub fn strlen_counts_the_bytes_before_the_zero()
    ensures { StrlenCounts }
{}

/// Where two texts stand, strcmp answers 0 if they have the same bytes before their zeros, and else another number.
pub fn strcmp_answers_0_for_equal_texts_alone()
    ensures { StrcmpTells }
{}

/// The texts that strchr, strrchr and strcmp go over end before their definitions do, or user memory does.
pub fn no_text_is_as_long_as_the_definitions_go_on()
    ensures { LengthIsNoLimit }
{}
